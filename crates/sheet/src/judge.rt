ghost use Rattle.std.specs.Prelude.{◌≡◌};
ghost use Rattle.sheet.specs.Spans.{JudgedAs, fault_number};

use crate::buffer::TEXT_WIDTH;
use crate::faults::{has_bad_name, has_bad_value, is_bad_text, repeats_key};
use crate::layout::{Layout, find_order};
use text::number;

// What a buffer's order is refused for.
#[derive(Clone, Copy)]
pub enum Fault {
    BadOrder,
    BadText,
    BadName,
    RepeatedKey,
}

impl Fault {
    // The number that C is given.
    pub fn number(self) -> u32
        ensures { result ≡ fault_number self }
    {
        match self {
            Fault::BadOrder => number::BAD_ORDER,
            Fault::BadText => number::BAD_TEXT,
            Fault::BadName => number::BAD_NAME,
            Fault::RepeatedKey => number::REPEATED_KEY,
        }
    }
}

// Tries the faults in turn, each over the whole buffer; gives where the order stands if there is none.  [02 order 5]
pub fn judge(buffer: &[u8]) -> Result<Layout, Fault>
    ensures { JudgedAs buffer.now result }
{
    let Some(layout) = find_order(buffer) else {
        return Err(Fault::BadOrder);
    };
    let Layout { title, count } = layout;
    let pairs = title + 1;
    if is_bad_text(buffer, TEXT_WIDTH, title) || has_bad_value(buffer, pairs, count) {
        return Err(Fault::BadText);
    }
    if has_bad_name(buffer, pairs, count) {
        return Err(Fault::BadName);
    }
    if repeats_key(buffer, pairs, count) {
        return Err(Fault::RepeatedKey);
    }
    Ok(layout)
}
