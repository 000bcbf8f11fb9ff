// A date as written: only its shape is judged.
#[derive(Clone, Copy)]
pub struct Date {
    pub year: u32,
    pub month: u32,
    pub day: u32,
}

#[derive(Clone, Copy)]
pub struct Time {
    pub hour: u32,
    pub minute: u32,
}

#[derive(Clone, Copy)]
pub struct Moment {
    pub date: Date,
    pub clock: Option<Time>,
}

// A number and its unit, one of `h d w m y`: a letter, as the C interface tells it.
#[derive(Clone, Copy)]
pub struct Interval {
    pub count: u32,
    pub unit: u8,
}

// `+`, `++` and `.+`
#[derive(Clone, Copy)]
pub enum Mark {
    Cumulate,
    CatchUp,
    Restart,
}

// A repeater; `limit` is the interval that may follow it after `/`.
#[derive(Clone, Copy)]
pub struct Repeat {
    pub mark: Mark,
    pub every: Interval,
    pub limit: Option<Interval>,
}

// `-`, or `--` for the first time only.
#[derive(Clone, Copy)]
pub struct Delay {
    pub first: bool,
    pub by: Interval,
}

// A repeater, a delay, or both in either order.
#[derive(Clone, Copy)]
pub enum Repeater {
    Repeats(Repeat),
    Delays(Delay),
    RepeatsDelays(Repeat, Delay),
    DelaysRepeats(Delay, Repeat),
}

#[derive(Clone, Copy)]
pub enum Bracket {
    Active,
    Inactive,
}

// A timestamp: of one date; with a time range, whose first time is the moment's; or with a second date.
#[derive(Clone, Copy)]
pub enum Timestamp {
    Single(Bracket, Moment, Option<Repeater>),
    Times(Bracket, Moment, Time, Option<Repeater>),
    Dates(Bracket, Moment, Option<Repeater>, Moment, Option<Repeater>),
}

// What stands in one pair of brackets; `until` is the end of a time range.
#[derive(Clone, Copy)]
pub struct Half {
    pub moment: Moment,
    pub until: Option<Time>,
    pub repeater: Option<Repeater>,
}
