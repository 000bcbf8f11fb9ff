ghost use Rattle.std.specs.Prelude.{◌≡◌, ◌+◌, ◌-◌, ◌≤◌, length, true};
ghost use Rattle.text.specs.Runs.{word};
ghost use Rattle.text.specs.Parts.{part};
ghost use Rattle.dates.specs.Reads as spec;
ghost use Rattle.dates.specs.Reads.{Reads, Takes, expect, gap, shaped, digit, value};
ghost use Rattle.text.specs.Maybe.{maybe};
ghost use Rattle.dates.specs.Stamps.{date_in, time_with, time, times, first_time, second_time, after_day_name};
ghost use Rattle.dates.specs.Found.{past_at};

use crate::stamp::{Date, Time};
use text::bytes::{Class, is_digit, run_end};
use text::word::begins_with;

// The times of a date: none, one, or a range's two; and the byte after them.
#[derive(Clone, Copy)]
pub struct Times {
    pub from: Option<Time>,
    pub until: Option<Time>,
    pub end: usize,
}

// Past a word. What passes over bytes gives the byte after them, and what reads a value gives that byte with it.
pub fn skip_word(text: &[u8], at: usize, to: usize, word: &[u8]) -> Option<usize>
    requires { (at ≤ to) × (to ≤ length text.now) }
    ensures { Reads text.now at to (expect word.now) (past_at result) }
{
    if begins_with(text, at, to, word) {
        Some(at + word.len())
    } else {
        None
    }
}

// Past one or more blank bytes.
pub fn skip_gap(text: &[u8], at: usize, to: usize) -> Option<usize>
    requires { (at ≤ to) × (to ≤ length text.now) }
    ensures { Reads text.now at to gap (past_at result) }
{
    let end = run_end(text, at, to, Class::Blank);
    if end == at { None } else { Some(end) }
}

// Whether a byte fits a byte of a shape, in which 0 stands for any digit.
fn fits(b: u8, shape: u8) -> bool
    ensures { result ≡ spec.fits shape b }
{
    if shape == b'0' {
        is_digit(b)
    } else {
        b == shape
    }
}

// Whether a part begins with bytes of a shape.
fn has_shape(text: &[u8], from: usize, to: usize, shape: &[u8]) -> bool
    requires { (from ≤ to) × (to ≤ length text.now) }
    ensures { result ≡ shaped shape.now (part text.now from to) }
{
    if to - from < shape.len() {
        return false;
    }
    for (j, &c) in shape.iter().enumerate() {
        if !fits(text[from + j], c) {
            return false;
        }
    }
    true
}

// The value of a digit.
fn digit_value(b: u8) -> u32
    ensures { (result ≡ digit b) × (result ≤ 9) }
{
    if is_digit(b) { (b - 48) as u32 } else { 0 }
}

// The value of at most nine digits.
pub fn digits_value(text: &[u8], from: usize, to: usize) -> u32
    requires { (from ≤ to) × (to ≤ length text.now) × (to - from ≤ 9) }
    ensures { result ≡ value (part text.now from to) }
{
    let mut v = 0;
    for &b in &text[from..to] {
        v = v * 10 + digit_value(b);
    }
    v
}

// Whether a date starts at a byte, `YYYY-MM-DD`.
pub fn is_date(text: &[u8], at: usize, to: usize) -> bool
    requires { (at ≤ to) × (to ≤ length text.now) }
    ensures { (result ≡ shaped (word "0000-00-00") (part text.now at to)) × (result ≡ true → at + 10 ≤ to) }
{
    has_shape(text, at, to, b"0000-00-00")
}

// The date at a byte.
pub fn date_at(text: &[u8], at: usize, to: usize) -> Date
    requires { (at + 10 ≤ to) × (to ≤ length text.now) }
    ensures { result ≡ date_in (part text.now at to) }
{
    Date {
        year: digits_value(text, at, at + 4),
        month: digits_value(text, at + 5, at + 7),
        day: digits_value(text, at + 8, at + 10),
    }
}

// The time at a byte whose hour has so many digits.
fn time_with(text: &[u8], at: usize, to: usize, digits: usize) -> Time
    requires { (digits ≤ 9) × (at + digits + 3 ≤ to) × (to ≤ length text.now) }
    ensures { result ≡ time_with digits (part text.now at to) }
{
    Time {
        hour: digits_value(text, at, at + digits),
        minute: digits_value(text, at + digits + 1, at + digits + 3),
    }
}

// A time, `HH:MM` or `H:MM`.
fn read_time(text: &[u8], at: usize, to: usize) -> Option<(Time, usize)>
    requires { (at ≤ to) × (to ≤ length text.now) }
    ensures { Reads text.now at to time (maybe result) }
{
    if has_shape(text, at, to, b"00:00") {
        return Some((time_with(text, at, to, 2), at + 5));
    }
    if has_shape(text, at, to, b"0:00") {
        return Some((time_with(text, at, to, 1), at + 4));
    }
    None
}

// A time after blank bytes.
fn read_first(text: &[u8], at: usize, to: usize) -> Option<(Time, usize)>
    requires { (at ≤ to) × (to ≤ length text.now) }
    ensures { Reads text.now at to first_time (maybe result) }
{
    let a = skip_gap(text, at, to)?;
    read_time(text, a, to)
}

// The second time of a range, after its hyphen.
fn read_second(text: &[u8], at: usize, to: usize) -> Option<(Time, usize)>
    requires { (at ≤ to) × (to ≤ length text.now) }
    ensures { Reads text.now at to second_time (maybe result) }
{
    let a = skip_word(text, at, to, b"-")?;
    read_time(text, a, to)
}

// An optional time or time range, after blank bytes.
pub fn read_times(text: &[u8], at: usize, to: usize) -> Times
    requires { (at ≤ to) × (to ≤ length text.now) }
    ensures { Takes text.now at to times (result.from, result.until) result.end }
{
    let Some((from, a)) = read_first(text, at, to) else {
        return Times {
            from: None,
            until: None,
            end: at,
        };
    };
    let Some((until, end)) = read_second(text, a, to) else {
        return Times {
            from: Some(from),
            until: None,
            end: a,
        };
    };
    Times {
        from: Some(from),
        until: Some(until),
        end,
    }
}

// The byte after an optional day name, after blank bytes.
pub fn skip_day_name(text: &[u8], at: usize, to: usize) -> usize
    requires { (at ≤ to) × (to ≤ length text.now) }
    ensures { (after_day_name (part text.now at to) ≡ part text.now result to) × (at ≤ result) × (result ≤ to) }
{
    let Some(a) = skip_gap(text, at, to) else {
        return at;
    };
    let end = run_end(text, a, to, Class::DayName);
    if end == a {
        return at;
    }
    if begins_with(text, a, to, b".+") {
        return at;
    }
    end
}
