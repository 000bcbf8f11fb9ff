ghost use Rattle.std.specs.Prelude.{◌≡◌, ◌≤◌};
ghost use Rattle.comaltzex.specs.Stamps as spec;

use dates::stamp::{Bracket, Delay, Interval, Mark, Moment, Repeat, Repeater, Time, Timestamp};

#[repr(C)]
#[derive(Clone, Copy)]
pub struct DateNumbers {
    pub year: u32,
    pub month: u32,
    pub day: u32,
}

// Whether there is a time, and its hour and minute.
#[repr(C)]
#[derive(Clone, Copy)]
pub struct ClockNumbers {
    pub has: u32,
    pub hour: u32,
    pub minute: u32,
}

#[repr(C)]
#[derive(Clone, Copy)]
pub struct IntervalNumbers {
    pub count: u32,
    pub unit: u32,
}

#[repr(C)]
#[derive(Clone, Copy)]
pub struct RepeatNumbers {
    pub mark: u32,
    pub every: IntervalNumbers,
    pub within: IntervalNumbers,
}

#[repr(C)]
#[derive(Clone, Copy)]
pub struct DelayNumbers {
    pub mark: u32,
    pub by: IntervalNumbers,
}

// A date with what belongs to it; what it lacks is 0. `swapped` is 1 where the delay stands before the repeater.
#[repr(C)]
#[derive(Clone, Copy)]
pub struct MomentNumbers {
    pub date: DateNumbers,
    pub clock: ClockNumbers,
    pub repeat: RepeatNumbers,
    pub delay: DelayNumbers,
    pub swapped: u32,
}

// A timestamp's kind, 0 for none, and its two dates.
#[repr(C)]
#[derive(Clone, Copy)]
pub struct Stamp {
    pub kind: u32,
    pub first: MomentNumbers,
    pub second: MomentNumbers,
}

fn clock_numbers(clock: Option<Time>) -> ClockNumbers
    ensures { result ≡ spec.clock_numbers clock }
{
    match clock {
        None => ClockNumbers {
            has: 0,
            hour: 0,
            minute: 0,
        },
        Some(time) => ClockNumbers {
            has: 1,
            hour: time.hour,
            minute: time.minute,
        },
    }
}

// `+` 1, `++` 2, `.+` 3
fn mark_number(mark: Mark) -> u32
    ensures { result ≡ spec.mark_number mark }
{
    match mark {
        Mark::Cumulate => 1,
        Mark::CatchUp => 2,
        Mark::Restart => 3,
    }
}

fn interval_numbers(interval: Interval) -> IntervalNumbers
    ensures { result ≡ spec.interval_numbers interval }
{
    IntervalNumbers {
        count: interval.count,
        unit: interval.unit as u32,
    }
}

fn no_interval() -> IntervalNumbers
    ensures { result ≡ spec.no_interval }
{
    IntervalNumbers { count: 0, unit: 0 }
}

fn limit_numbers(limit: Option<Interval>) -> IntervalNumbers
    ensures { result ≡ spec.limit_numbers limit }
{
    match limit {
        None => no_interval(),
        Some(interval) => interval_numbers(interval),
    }
}

fn repeat_numbers(repeat: Repeat) -> RepeatNumbers
    ensures { result ≡ spec.repeat_numbers repeat }
{
    let mark = repeat.mark;
    let every = repeat.every;
    let limit = repeat.limit;
    RepeatNumbers {
        mark: mark_number(mark),
        every: interval_numbers(every),
        within: limit_numbers(limit),
    }
}

fn no_repeat() -> RepeatNumbers
    ensures { result ≡ spec.no_repeat }
{
    RepeatNumbers {
        mark: 0,
        every: no_interval(),
        within: no_interval(),
    }
}

// `-` 1, `--` 2
fn delay_numbers(delay: Delay) -> DelayNumbers
    ensures { result ≡ spec.delay_numbers delay }
{
    let by = delay.by;
    DelayNumbers {
        mark: if delay.first { 2 } else { 1 },
        by: interval_numbers(by),
    }
}

fn no_delay() -> DelayNumbers
    ensures { result ≡ spec.no_delay }
{
    DelayNumbers {
        mark: 0,
        by: no_interval(),
    }
}

fn date_with(
    moment: Moment,
    repeat: RepeatNumbers,
    delay: DelayNumbers,
    swapped: u32,
) -> MomentNumbers
    ensures { result ≡ spec.date_with moment repeat delay swapped }
{
    let date = moment.date;
    let clock = moment.clock;
    MomentNumbers {
        date: DateNumbers {
            year: date.year,
            month: date.month,
            day: date.day,
        },
        clock: clock_numbers(clock),
        repeat,
        delay,
        swapped,
    }
}

fn moment_numbers(moment: Moment, repeater: Option<Repeater>) -> MomentNumbers
    ensures { result ≡ spec.moment_numbers moment repeater }
{
    match repeater {
        None => date_with(moment, no_repeat(), no_delay(), 0),
        Some(Repeater::Repeats(repeat)) => date_with(moment, repeat_numbers(repeat), no_delay(), 0),
        Some(Repeater::Delays(delay)) => date_with(moment, no_repeat(), delay_numbers(delay), 0),
        Some(Repeater::RepeatsDelays(repeat, delay)) => date_with(
            moment,
            repeat_numbers(repeat),
            delay_numbers(delay),
            0,
        ),
        Some(Repeater::DelaysRepeats(delay, repeat)) => date_with(
            moment,
            repeat_numbers(repeat),
            delay_numbers(delay),
            1,
        ),
    }
}

fn no_moment() -> MomentNumbers
    ensures { result ≡ spec.no_moment }
{
    MomentNumbers {
        date: DateNumbers {
            year: 0,
            month: 0,
            day: 0,
        },
        clock: ClockNumbers {
            has: 0,
            hour: 0,
            minute: 0,
        },
        repeat: no_repeat(),
        delay: no_delay(),
        swapped: 0,
    }
}

// A kind's number: of three when active, three more when not.
fn kind_number(bracket: Bracket, kind: u32) -> u32
    requires { kind ≤ 3 }
    ensures { result ≡ spec.kind_number bracket kind }
{
    match bracket {
        Bracket::Active => kind,
        Bracket::Inactive => kind + 3,
    }
}

// A timestamp in numbers.
pub fn stamp_numbers(timestamp: Option<Timestamp>) -> Stamp
    ensures { result ≡ spec.stamp_numbers timestamp }
{
    match timestamp {
        None => Stamp {
            kind: 0,
            first: no_moment(),
            second: no_moment(),
        },
        Some(Timestamp::Single(bracket, moment, repeater)) => Stamp {
            kind: kind_number(bracket, 1),
            first: moment_numbers(moment, repeater),
            second: no_moment(),
        },
        Some(Timestamp::Times(bracket, moment, until, repeater)) => {
            let date = moment.date;
            let end = Moment {
                date,
                clock: Some(until),
            };
            Stamp {
                kind: kind_number(bracket, 2),
                first: moment_numbers(moment, repeater),
                second: moment_numbers(end, None),
            }
        }
        Some(Timestamp::Dates(bracket, moment, repeater, end, after)) => Stamp {
            kind: kind_number(bracket, 3),
            first: moment_numbers(moment, repeater),
            second: moment_numbers(end, after),
        },
    }
}
