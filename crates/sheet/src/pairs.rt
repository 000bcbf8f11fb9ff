// The pairs of a buffer, one after another.  [02 order 5]
ghost use Rattle.std.specs.Prelude.{◌≡◌, ◌≤◌, length};
ghost use Rattle.sheet.specs.Spans.{HasPair, PairAt, are_pairs};

use crate::buffer::{KEY_WIDTH, TEXT_WIDTH, find_sized, low_first};

// A pair's key stands from `from` to `to`, its value from `value` to `end`, where the pair ends.
#[derive(Clone, Copy)]
pub struct PairSpan {
    pub from: usize,
    pub to: usize,
    pub value: usize,
    pub end: usize,
}

// The pair at a byte.
pub fn pair_at(buffer: &[u8], at: usize) -> PairSpan
    requires { HasPair buffer.now at }
    ensures { PairAt buffer.now at result }
{
    let from = at + KEY_WIDTH;
    let to = from + low_first(buffer, at, KEY_WIDTH);
    let value = to + TEXT_WIDTH;
    PairSpan {
        from,
        to,
        value,
        end: value + low_first(buffer, to, TEXT_WIDTH),
    }
}

// Whether so many pairs stand from a byte on, and the buffer ends with them.
pub fn are_pairs(buffer: &[u8], from: usize, count: usize) -> bool
    requires { from ≤ length buffer.now }
    ensures { result ≡ are_pairs buffer.now from count }
{
    let mut at = from;
    for _ in 0..count {
        let Some(key) = find_sized(buffer, at, KEY_WIDTH) else {
            return false;
        };
        let Some(value) = find_sized(buffer, key.to, TEXT_WIDTH) else {
            return false;
        };
        at = value.to;
    }
    at == buffer.len()
}
