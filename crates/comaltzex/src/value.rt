ghost use Rattle.std.specs.Prelude.{◌≡◌};
ghost use Rattle.comaltzex.specs.Values.{value_numbers, sourced_value, sourced_numbers};

use lookup::defaults::Sourced;
use lookup::lookup::{Answer, Refusal};
use lookup::span::Span;
use text::number;

// Whose answer it is, as lookup's specs/Defaults has it.
const ORDER: u32 = 1;

const DEFAULTS: u32 = 2;

// The number of a lookup's answer, the value's two ends, and a further number.
#[repr(C)]
#[derive(Clone, Copy)]
pub struct Value {
    pub number: u32,
    pub start: usize,
    pub end: usize,
    pub further: usize,
}

// The same with whose answer it is.
#[repr(C)]
#[derive(Clone, Copy)]
pub struct SourcedValue {
    pub number: u32,
    pub whose: u32,
    pub start: usize,
    pub end: usize,
    pub further: usize,
}

pub fn value_numbers(answer: Answer) -> Value
    ensures { result ≡ value_numbers answer }
{
    match answer {
        Ok(Span { start, end }) => Value {
            number: number::DONE,
            start,
            end,
            further: 0,
        },
        Err(Refusal::TooLong) => refused(number::TOO_LONG, 0),
        Err(Refusal::NoHeading) => refused(number::NO_HEADING, 0),
        Err(Refusal::BlankFirst) => refused(number::BLANK_FIRST, 0),
        Err(Refusal::NotClosed) => refused(number::NOT_CLOSED, 0),
        Err(Refusal::NotProperty(line)) => refused(number::NOT_PROPERTY, line),
        Err(Refusal::NoDrawer) => refused(number::NO_DRAWER, 0),
        Err(Refusal::NoKey) => refused(number::NO_KEY, 0),
        Err(Refusal::BadKey) => refused(number::BAD_KEY, 0),
    }
}

// A refusal: the empty part at byte 0.
fn refused(number: u32, further: usize) -> Value
    ensures { result ≡ record { number = number; start = 0; end = 0; further = further } }
{
    Value {
        number,
        start: 0,
        end: 0,
        further,
    }
}

pub fn sourced_numbers(answer: Sourced) -> SourcedValue
    ensures { result ≡ sourced_numbers answer }
{
    match answer {
        Sourced::Order(own) => sourced_value(ORDER, value_numbers(own)),
        Sourced::Defaults(own) => sourced_value(DEFAULTS, value_numbers(own)),
    }
}

// A value with whose it is.
fn sourced_value(whose: u32, value: Value) -> SourcedValue
    ensures { result ≡ sourced_value whose value }
{
    SourcedValue {
        number: value.number,
        whose,
        start: value.start,
        end: value.end,
        further: value.further,
    }
}
