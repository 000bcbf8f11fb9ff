ghost use Rattle.std.specs.Prelude.{◌≡◌, false, ◌≤◌, length};
ghost use Rattle.text.specs.Parts.{lines_in};
ghost use Rattle.lookup.specs.Stages.{is_bad_key, heading_at, value_in};

use crate::span::Span;
use rules::heading::heading_stars;
use rules::property::property_at;
use text::bytes::{Class, run_end};
use text::limit;
use text::line::{line_at, line_end, starts_line};
use text::marks::word_end;
use text::word::is_word;

// Whether a key is empty, over 64 bytes, holds a blank byte or byte 10, or ends in `+`.  [01 "Numbers of an answer"]
pub fn is_bad_key(key: &[u8]) -> bool
    ensures { result ≡ is_bad_key key.now }
{
    let size = key.len();
    if size == 0 || limit::KEY < size {
        return true;
    }
    if word_end(key, 0, size) < size {
        return true;
    }
    key[size - 1] == b'+'
}

// The first byte after the heading line that starts at a byte.
pub fn find_heading(text: &[u8], at: usize) -> Option<usize>
    ensures { result ≡ heading_at text.now at }
{
    let end = text.len();
    if end <= at {
        return None;
    }
    if !starts_line(text, at) {
        return None;
    }
    if heading_stars(text, at, end) == 0 {
        return None;
    }
    Some(line_end(text, at, end))
}

// The value of the first line with a key.
pub fn find_value(text: &[u8], from: usize, to: usize, key: &[u8]) -> Option<Span>
    requires { (from ≤ to) × (to ≤ length text.now) × (is_bad_key key.now ≡ false) }
    ensures { result ≡ value_in key.now from (lines_in text.now from to) }
{
    let mut at = from;
    while at < to {
        let line = line_at(text, at, to);
        if let Some(property) = property_at(text, line, to) {
            if is_word(text, line.from + 1, property.name, key) {
                return Some(Span {
                    start: run_end(text, property.marker, line.to, Class::Blank),
                    end: line.to,
                });
            }
        }
        at = line.end;
    }
    None
}
