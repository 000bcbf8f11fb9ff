ghost use Rattle.std.specs.Prelude.{◌≡◌};
ghost use Rattle.sheet.specs.declared.write.Refusal.TheVariants as Refusals;
ghost use Rattle.sheet.specs.Answers.{put_out};
ghost use Rattle.sheet.specs.Sheet.{sheet};
ghost use Rattle.sheet.specs.Spans.{LaidOut, order_at};
ghost use Rattle.sheet.specs.Promises.{Settled, Answers, refusal_number, needed};

use crate::judge::{Fault, judge};
use crate::layout::Layout;
use crate::sheet::put_sheet;
use crate::size::sheet_size;
use text::{limit, number};

// Why no sheet is written: a fault of the order, a sheet over 65,536 bytes, or no room, with the bytes needed.
#[derive(Clone, Copy)]
pub enum Refusal {
    Fault(Fault),
    TooLong,
    ShortOutput(usize),
}

impl From<Fault> for Refusal {
    ghost from_gives = { λ f r. r ≡ Refusals.Fault f };

    fn from(fault: Fault) -> Refusal {
        Refusal::Fault(fault)
    }
}

impl Refusal {
    // The number that C is given.
    pub fn number(self) -> u32
        ensures { result ≡ refusal_number self }
    {
        match self {
            Refusal::Fault(fault) => fault.number(),
            Refusal::TooLong => number::TOO_LONG,
            Refusal::ShortOutput(_) => number::SHORT_OUTPUT,
        }
    }

    // The count that C is given: the bytes needed where there is no room, else 0.
    pub fn needed(self) -> usize
        ensures { result ≡ needed self }
    {
        match self {
            Refusal::ShortOutput(size) => size,
            Refusal::Fault(_) | Refusal::TooLong => 0,
        }
    }
}

// Writes the sheet of an order that is good, if it is not too long and there is room.
fn write_good(order: &[u8], layout: Layout, out: &mut [u8]) -> Result<usize, Refusal>
    requires { LaidOut order.now layout }
    ensures { Answers result out.new (put_out (sheet (order_at order.now layout)) out.old) }
{
    let size = sheet_size(order, layout);
    if limit::TEXT < size {
        return Err(Refusal::TooLong);
    }
    if out.len() < size {
        return Err(Refusal::ShortOutput(size));
    }
    put_sheet(order, layout, out);
    Ok(size)
}

// Writes an order's sheet into a lent output; gives its length. Tries in turn: the order's faults; the sheet is over 65,536 bytes; there is no room.
pub fn write_sheet(order: &[u8], out: &mut [u8]) -> Result<usize, Refusal>
    ensures { Settled order.now out.old result out.new }
{
    let layout = judge(order)?;
    write_good(order, layout, out)
}
