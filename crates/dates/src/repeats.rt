ghost use Rattle.std.specs.Prelude.{◌≡◌, ◌≤◌, length};
ghost use Rattle.dates.specs.Reads.{Reads, Takes};
ghost use Rattle.dates.specs.Stamps as spec;
ghost use Rattle.text.specs.Maybe.{maybe};

use crate::parts::{digits_value, skip_gap, skip_word};
use crate::stamp::{Delay, Interval, Mark, Repeat, Repeater};
use text::bytes::{Class, lower, run_end};
use text::word::begins_with;

// The most digits of a number.
const DIGITS: usize = 9;

// A repeater, a delay, both or neither, and the byte after them.
#[derive(Clone, Copy)]
pub struct RepeaterTo {
    pub repeater: Option<Repeater>,
    pub end: usize,
}

// Whether a small letter is a unit.
fn is_unit(b: u8) -> bool
    ensures { result ≡ spec.is_unit b }
{
    matches!(b, b'd' | b'h' | b'm' | b'w' | b'y')
}

// One to nine digits and a unit.
fn read_interval(text: &[u8], at: usize, to: usize) -> Option<(Interval, usize)>
    requires { (at ≤ to) × (to ≤ length text.now) }
    ensures { Reads text.now at to spec.interval (maybe result) }
{
    let end = run_end(text, at, to, Class::Digit);
    if end == at {
        return None;
    }
    if DIGITS < end - at {
        return None;
    }
    if to <= end {
        return None;
    }
    let unit = lower(text[end]);
    if !is_unit(unit) {
        return None;
    }
    let interval = Interval {
        count: digits_value(text, at, end),
        unit,
    };
    Some((interval, end + 1))
}

// A repeater's mark.
fn read_mark(text: &[u8], at: usize, to: usize) -> Option<(Mark, usize)>
    requires { (at ≤ to) × (to ≤ length text.now) }
    ensures { Reads text.now at to spec.mark (maybe result) }
{
    if begins_with(text, at, to, b"++") {
        return Some((Mark::CatchUp, at + 2));
    }
    if begins_with(text, at, to, b"+") {
        return Some((Mark::Cumulate, at + 1));
    }
    if begins_with(text, at, to, b".+") {
        return Some((Mark::Restart, at + 2));
    }
    None
}

// A repeater after blank bytes.
fn read_repeat(text: &[u8], at: usize, to: usize) -> Option<(Repeat, usize)>
    requires { (at ≤ to) × (to ≤ length text.now) }
    ensures { Reads text.now at to spec.repeat (maybe result) }
{
    let a = skip_gap(text, at, to)?;
    let (mark, b) = read_mark(text, a, to)?;
    let (every, c) = read_interval(text, b, to)?;
    let Some(d) = skip_word(text, c, to, b"/") else {
        let free = Repeat {
            mark,
            every,
            limit: None,
        };
        return Some((free, c));
    };
    let (within, end) = read_interval(text, d, to)?;
    let limited = Repeat {
        mark,
        every,
        limit: Some(within),
    };
    Some((limited, end))
}

// A delay after blank bytes.
fn read_delay(text: &[u8], at: usize, to: usize) -> Option<(Delay, usize)>
    requires { (at ≤ to) × (to ≤ length text.now) }
    ensures { Reads text.now at to spec.delay (maybe result) }
{
    let a = skip_gap(text, at, to)?;
    let b = run_end(text, a, to, Class::Hyphen);
    if b == a {
        return None;
    }
    if 2 < b - a {
        return None;
    }
    let (by, end) = read_interval(text, b, to)?;
    let delay = Delay {
        first: b - a == 2,
        by,
    };
    Some((delay, end))
}

// An optional repeater, delay, or both in either order.
pub fn read_repeater(text: &[u8], at: usize, to: usize) -> RepeaterTo
    requires { (at ≤ to) × (to ≤ length text.now) }
    ensures { Takes text.now at to spec.repeater result.repeater result.end }
{
    if let Some((repeat, a)) = read_repeat(text, at, to) {
        let Some((delay, b)) = read_delay(text, a, to) else {
            return RepeaterTo {
                repeater: Some(Repeater::Repeats(repeat)),
                end: a,
            };
        };
        return RepeaterTo {
            repeater: Some(Repeater::RepeatsDelays(repeat, delay)),
            end: b,
        };
    }
    let Some((delay, a)) = read_delay(text, at, to) else {
        return RepeaterTo {
            repeater: None,
            end: at,
        };
    };
    let Some((repeat, b)) = read_repeat(text, a, to) else {
        return RepeaterTo {
            repeater: Some(Repeater::Delays(delay)),
            end: a,
        };
    };
    RepeaterTo {
        repeater: Some(Repeater::DelaysRepeats(delay, repeat)),
        end: b,
    }
}
