ghost use Rattle.std.specs.Prelude.{◌≡◌, ◌≤◌, ◌<◌, length};
ghost use Rattle.dates.specs.Reads.{Reads};
ghost use Rattle.dates.specs.Stamps.{half, second, stamp};
ghost use Rattle.dates.specs.Found.{half_at, HasRange, second_at, HasDate, SpanOf, end_of, stamp_at};

use crate::parts::{is_date, read_times, skip_day_name, skip_word};
use crate::repeats::read_repeater;
use text::word::begins_with;

// The byte after a timestamp of one date; or the byte at which its second half starts, and the byte after it.
#[derive(Clone, Copy)]
pub enum Span {
    One(usize),
    Two(usize, usize),
}

// Past what stands after an opening bracket, up to and with the closing one; and whether that has a time range.
fn skip_half(text: &[u8], at: usize, to: usize, closing: &[u8]) -> Option<(usize, bool)>
    requires { (at ≤ to) × (to ≤ length text.now) }
    ensures { Reads text.now at to (half closing.now) (half_at text.now at to result) × HasRange text.now at to result }
{
    if !is_date(text, at, to) {
        return None;
    }
    let a = skip_day_name(text, at + 10, to);
    let times = read_times(text, a, to);
    let repeats = read_repeater(text, times.end, to);
    let end = skip_word(text, repeats.end, to, closing)?;
    Some((end, times.until.is_some()))
}

// Past a second date, of no time range: the byte at which its half starts, and the byte after it.
fn skip_second(
    text: &[u8],
    at: usize,
    to: usize,
    opening: &[u8],
    closing: &[u8],
) -> Option<(usize, usize)>
    requires { (at ≤ to) × (to ≤ length text.now) }
    ensures { Reads text.now at to (second opening.now closing.now) (second_at text.now to result) × HasDate to result }
{
    let start = skip_word(text, at, to, opening)?;
    let (end, range) = skip_half(text, start, to, closing)?;
    if range { None } else { Some((start, end)) }
}

// Past the timestamp whose opening bracket stands at a byte. A second date has the same brackets, and then neither half has a time range.
pub fn skip_bracketed(
    text: &[u8],
    at: usize,
    to: usize,
    opening: &[u8],
    closing: &[u8],
) -> Option<Span>
    requires { (at < to) × (to ≤ length text.now) }
    ensures { SpanOf text.now at to opening.now closing.now result }
{
    let (a, range) = skip_half(text, at + 1, to, closing)?;
    if range {
        return Some(Span::One(a));
    }
    match skip_second(text, a, to, opening, closing) {
        None => Some(Span::One(a)),
        Some((b, end)) => Some(Span::Two(b, end)),
    }
}

// The byte after a timestamp.
fn span_end(span: Span) -> usize
    ensures { result ≡ end_of span }
{
    match span {
        Span::One(end) | Span::Two(_, end) => end,
    }
}

// Past the timestamp that starts at a byte.
pub fn skip_timestamp(text: &[u8], at: usize, to: usize) -> Option<usize>
    requires { (at ≤ to) × (to ≤ length text.now) }
    ensures { Reads text.now at to stamp (stamp_at text.now at to result) }
{
    if begins_with(text, at, to, b"<") {
        return skip_bracketed(text, at, to, b"--<", b">").map(span_end);
    }
    if begins_with(text, at, to, b"[") {
        return skip_bracketed(text, at, to, b"--[", b"]").map(span_end);
    }
    None
}
