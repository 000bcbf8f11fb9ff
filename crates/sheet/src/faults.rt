// What an order is refused for by 13, 14 and 15, each over all pairs.  [02 order 5]
ghost use Rattle.std.specs.Prelude.{◌≡◌, Bool, ◌≤◌, length};
ghost use Rattle.text.specs.Parts.{part};
ghost use Rattle.sheet.specs.Order.{Pair, has_key, some_pair};
ghost use Rattle.sheet.specs.Faults.{has_break, is_bad_text, is_bad_name, repeats};
ghost use Rattle.sheet.specs.Spans.{HasPairs, PairIn, Tests, pairs_at};

use crate::pairs::{PairSpan, pair_at};
use crate::search::find_value;
use lookup::stages::is_bad_key;
use text::bytes::{Class, is_of};
use text::word::is_word;

// Whether a part holds byte 10 or 13.
fn has_break(buffer: &[u8], from: usize, to: usize) -> bool
    requires { (from ≤ to) × (to ≤ length buffer.now) }
    ensures { result ≡ has_break (part buffer.now from to) }
{
    buffer[from..to].iter().any(|b| *b == 10 || *b == 13)
}

// Whether a title or value holds byte 10 or 13, or has a blank byte at either end.
pub fn is_bad_text(buffer: &[u8], from: usize, to: usize) -> bool
    requires { (from ≤ to) × (to ≤ length buffer.now) }
    ensures { result ≡ is_bad_text (part buffer.now from to) }
{
    if to <= from {
        return false;
    }
    if has_break(buffer, from, to) {
        return true;
    }
    is_of(buffer[from], Class::Blank) || is_of(buffer[to - 1], Class::Blank)
}

// Whether one of so many pairs passes a test.
fn some_pair<F: Fn(PairSpan) -> bool>(buffer: &[u8], from: usize, count: usize, test: F) -> bool
    requires { HasPairs buffer.now from count × ((p : PairSpan) → PairIn buffer.now p → F.pre test p) }
    ensures { (f : Pair → Bool) → Tests buffer.now f (F.post test) → result ≡ some_pair f (pairs_at buffer.now from count) }
{
    let mut at = from;
    for _ in 0..count {
        let pair = pair_at(buffer, at);
        if test(pair) {
            return true;
        }
        at = pair.end;
    }
    false
}

// Whether one of so many values is bad.
pub fn has_bad_value(buffer: &[u8], from: usize, count: usize) -> bool
    requires { HasPairs buffer.now from count }
    ensures { result ≡ some_pair (λ p. is_bad_text p.value) (pairs_at buffer.now from count) }
{
    some_pair(
        buffer,
        from,
        count,
        |pair| is_bad_text(buffer, pair.value, pair.end),
    )
}

// Whether a key is bad, or `END`.
fn is_bad_name(key: &[u8]) -> bool
    ensures { result ≡ is_bad_name key.now }
{
    is_bad_key(key) || is_word(key, 0, key.len(), b"END")
}

// Whether one of so many keys is bad, or `END`.
pub fn has_bad_name(buffer: &[u8], from: usize, count: usize) -> bool
    requires { HasPairs buffer.now from count }
    ensures { result ≡ some_pair (λ p. is_bad_name p.key) (pairs_at buffer.now from count) }
{
    some_pair(
        buffer,
        from,
        count,
        |pair| is_bad_name(&buffer[pair.from..pair.to]),
    )
}

// Whether one of so many pairs has a key, case ignored.
fn has_key(buffer: &[u8], from: usize, count: usize, key: &[u8]) -> bool
    requires { HasPairs buffer.now from count }
    ensures { result ≡ has_key key.now (pairs_at buffer.now from count) }
{
    find_value(buffer, from, count, key).is_some()
}

// Whether one of so many keys comes again later, case ignored.
pub fn repeats_key(buffer: &[u8], from: usize, count: usize) -> bool
    requires { HasPairs buffer.now from count }
    ensures { result ≡ repeats (pairs_at buffer.now from count) }
{
    let mut at = from;
    for left in (0..count).rev() {
        let pair = pair_at(buffer, at);
        at = pair.end;
        if has_key(buffer, at, left, &buffer[pair.from..pair.to]) {
            return true;
        }
    }
    false
}
