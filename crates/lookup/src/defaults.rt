ghost use Rattle.std.specs.Prelude.{◌≡◌};
ghost use Rattle.lookup.specs.Defaults as spec;
ghost use Rattle.lookup.specs.Promises.{SourcedFrom};

use crate::lookup::{Answer, Refusal, lookup, part_of};
use rules::heading::next_heading;
use text::limit;
use text::word::is_word;

// An answer, and whose it is: the order text's or the defaults'.  [02 order 13]
#[derive(Clone, Copy)]
pub enum Sourced {
    Order(Answer),
    Defaults(Answer),
}

// Whether a key is one that is never taken from the defaults.
fn is_reserved(key: &[u8]) -> bool
    ensures { result ≡ spec.is_reserved key.now }
{
    let size = key.len();
    is_word(key, 0, size, b"VIN") || is_word(key, 0, size, b"REQUEST")
}

// The defaults' own answer, at their first heading line. A text that is too long is not searched for one.
fn of_defaults(defaults: &[u8], key: &[u8]) -> Answer
    ensures { result ≡ spec.of_defaults defaults.now key.now }
{
    let size = defaults.len();
    if limit::TEXT < size {
        return Err(Refusal::TooLong);
    }
    lookup(defaults, next_heading(defaults, 0, size), key)
}

// Whether the defaults are asked for a key after an answer of the order.
#[tactic(auto, unfolding(crate::specs::Defaults::asks_defaults))]
fn asks_defaults(answer: Answer, key: &[u8]) -> bool
    ensures { result ≡ spec.asks_defaults answer key.now }
{
    matches!(answer, Err(Refusal::NoKey)) && !is_reserved(key)
}

// Looks a key up in an order and, where its drawer lacks the key, in the defaults, but for `VIN` and `REQUEST`.
pub fn lookup_with_defaults(order: &[u8], at: usize, defaults: &[u8], key: &[u8]) -> Sourced
    ensures value { result ≡ spec.with_defaults order.now at defaults.now key.now }
    ensures sourced_from { SourcedFrom order.now at defaults.now key.now result }
{
    let own = lookup(order, at, key);
    if asks_defaults(own, key) {
        return Sourced::Defaults(of_defaults(defaults, key));
    }
    Sourced::Order(own)
}

// The value itself: a part of the order text or of the defaults text.
pub fn property_or_default<'a>(
    order: &'a [u8],
    at: usize,
    defaults: &'a [u8],
    key: &[u8],
) -> &'a [u8]
    ensures result_value { result.now ≡ spec.part_given order.now at defaults.now key.now }
    ensures ref_ptr_value { result.ref_ptr ≡ spec.place_given order.now at defaults.now key.now order.entry.ref_ptr defaults.entry.ref_ptr }
{
    match lookup_with_defaults(order, at, defaults, key) {
        Sourced::Order(answer) => part_of(order, answer),
        Sourced::Defaults(answer) => part_of(defaults, answer),
    }
}
