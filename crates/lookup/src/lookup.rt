ghost use Rattle.std.specs.Prelude.{◌≡◌, ◌≤◌, Ok, length};
ghost use Rattle.lookup.specs.Drawers.{drawer_after};
ghost use Rattle.lookup.specs.Lookup as spec;
ghost use Rattle.lookup.specs.Lookup.{Inside};
ghost use Rattle.lookup.specs.Promises.{Tied};

use crate::drawer::{NoDrawer, find_drawer};
use crate::span::Span;
use crate::stages::{find_heading, find_value, is_bad_key};
use text::limit;

// Why a lookup gives no value, for `NotProperty` with the line's start.  [01 "Numbers of an answer", 02 order 2]
#[derive(Clone, Copy)]
pub enum Refusal {
    TooLong,
    NoHeading,
    BlankFirst,
    NotClosed,
    NotProperty(usize),
    NoDrawer,
    NoKey,
    BadKey,
}

// The answer of a lookup: where the value stands, or why there is none.
pub type Answer = Result<Span, Refusal>;

impl From<NoDrawer> for Refusal {
    ghost from_gives = { λ why refusal. refusal ≡ spec.no_drawer why };

    fn from(why: NoDrawer) -> Refusal {
        match why {
            NoDrawer::BlankFirst => Refusal::BlankFirst,
            NoDrawer::NotClosed => Refusal::NotClosed,
            NoDrawer::NotProperty(line) => Refusal::NotProperty(line),
            NoDrawer::Missing => Refusal::NoDrawer,
        }
    }
}

// The lines of the drawer of the heading whose line ends at a byte, or the refusal of a heading without one.
fn find_lines(text: &[u8], from: usize) -> Answer
    requires { from ≤ length text.now }
    ensures { result ≡ spec.with_drawer (drawer_after text.now from) (λ lines. Ok lines) }
{
    Ok(find_drawer(text, from)?)
}

// Looks a key up in the property drawer of the heading line that starts at a byte. Each stage is left by `let .. else`, the form that document 01
// names. Tries in turn: the text is over 65,536 bytes; the key is
// bad; no heading line starts there; that heading has no property drawer, with the reason; no line of it has the key.
pub fn lookup(text: &[u8], at: usize, key: &[u8]) -> Answer
    ensures value { result ≡ spec.lookup text.now at key.now }
    ensures tied { Tied text.now at key.now result }
{
    if limit::TEXT < text.len() {
        return Err(Refusal::TooLong);
    }
    if is_bad_key(key) {
        return Err(Refusal::BadKey);
    }
    let Some(inner) = find_heading(text, at) else {
        return Err(Refusal::NoHeading);
    };
    let drawer = find_lines(text, inner);
    let Ok(lines) = drawer else {
        return drawer;
    };
    let Some(value) = find_value(text, lines.start, lines.end, key) else {
        return Err(Refusal::NoKey);
    };
    Ok(value)
}

// The part of a text that an answer gives: the value itself, and the empty part at byte 0 where it is a refusal.
pub fn part_of<'a>(text: &'a [u8], answer: Answer) -> &'a [u8]
    requires { Inside text.now answer }
    ensures result_value { result.now ≡ spec.part_of answer text.now }
    ensures ref_ptr_value { result.ref_ptr ≡ spec.place_of answer text.entry.ref_ptr }
{
    let Ok(Span { start, end }) = answer else {
        return &text[0..0];
    };
    &text[start..end]
}

// The value itself, as a part of the text.
pub fn property<'a>(text: &'a [u8], at: usize, key: &[u8]) -> &'a [u8]
    ensures result_value { result.now ≡ spec.part_of (spec.lookup text.now at key.now) text.now }
    ensures ref_ptr_value { result.ref_ptr ≡ spec.place_of (spec.lookup text.now at key.now) text.entry.ref_ptr }
{
    part_of(text, lookup(text, at, key))
}
