ghost use Rattle.std.specs.Prelude.{◌≡◌, ◌+◌, ◌≤◌, ◌<◌, length};
ghost use Rattle.text.specs.Parts.{part};
ghost use Rattle.dates.specs.Reads.{Takes};
ghost use Rattle.dates.specs.Stamps as spec;
ghost use Rattle.dates.specs.Found.{half_in};

use crate::parts::{date_at, read_times, skip_day_name};
use crate::repeats::read_repeater;
use crate::span::{Span, skip_bracketed};
use crate::stamp::{Bracket, Half, Moment, Timestamp};
use text::word::begins_with;

// A timestamp, or none, and the byte after it.
#[derive(Clone, Copy)]
pub struct StampTo {
    pub timestamp: Option<Timestamp>,
    pub end: usize,
}

// What stands after an opening bracket, where a date does.
fn half_at(text: &[u8], at: usize, to: usize) -> Half
    requires { (at + 10 ≤ to) × (to ≤ length text.now) }
    ensures { result ≡ half_in (part text.now at to) }
{
    let a = skip_day_name(text, at + 10, to);
    let times = read_times(text, a, to);
    let repeats = read_repeater(text, times.end, to);
    let moment = Moment {
        date: date_at(text, at, to),
        clock: times.from,
    };
    Half {
        moment,
        until: times.until,
        repeater: repeats.repeater,
    }
}

// A timestamp of one date.
fn alone(bracket: Bracket, half: Half) -> Timestamp
    ensures { result ≡ spec.alone bracket half }
{
    match half.until {
        None => Timestamp::Single(bracket, half.moment, half.repeater),
        Some(time) => Timestamp::Times(bracket, half.moment, time, half.repeater),
    }
}

// A timestamp of two dates.
fn both(bracket: Bracket, half: Half, second: Half) -> Timestamp
    ensures { result ≡ spec.both bracket half second }
{
    Timestamp::Dates(
        bracket,
        half.moment,
        half.repeater,
        second.moment,
        second.repeater,
    )
}

// The timestamp whose opening bracket stands at a byte.
fn read_bracketed(
    text: &[u8],
    at: usize,
    to: usize,
    bracket: Bracket,
    opening: &[u8],
    closing: &[u8],
) -> StampTo
    requires { (at < to) × (to ≤ length text.now) }
    ensures { Takes text.now at to (spec.bracketed bracket opening.now closing.now) result.timestamp result.end }
{
    match skip_bracketed(text, at, to, opening, closing) {
        Some(Span::One(end)) => StampTo {
            timestamp: Some(alone(bracket, half_at(text, at + 1, to))),
            end,
        },
        Some(Span::Two(second, end)) => StampTo {
            timestamp: Some(both(
                bracket,
                half_at(text, at + 1, to),
                half_at(text, second, to),
            )),
            end,
        },
        None => StampTo {
            timestamp: None,
            end: at,
        },
    }
}

// The timestamp that starts at a byte, and the byte after it.
pub fn read_timestamp(text: &[u8], at: usize, to: usize) -> StampTo
    requires { (at ≤ to) × (to ≤ length text.now) }
    ensures { Takes text.now at to spec.timestamp result.timestamp result.end }
{
    if begins_with(text, at, to, b"<") {
        return read_bracketed(text, at, to, Bracket::Active, b"--<", b">");
    }
    if begins_with(text, at, to, b"[") {
        return read_bracketed(text, at, to, Bracket::Inactive, b"--[", b"]");
    }
    StampTo {
        timestamp: None,
        end: at,
    }
}
