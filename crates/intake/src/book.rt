// The part of a book after its bytes in use.  [02 order 6]
ghost use Rattle.std.specs.Prelude.{◌≡◌, ◌+◌, ◌≤◌, length, take};
ghost use Rattle.text.specs.Lines.{is_ended};
ghost use Rattle.sheet.specs.Sheet.{sheet};
ghost use Rattle.sheet.specs.Output.{laid};
ghost use Rattle.sheet.specs.Spans.{LaidOut, order_at, longest_sheet};
ghost use Rattle.intake.specs.Book.{added_to};

use sheet::layout::Layout;
use sheet::sheet::put_sheet;
use sheet::size::sheet_size;

// Whether the last line in use has its byte 10, or there is none.
pub fn is_ended(book: &[u8], used: usize) -> bool
    requires { used ≤ length book.now }
    ensures { result ≡ is_ended (take used book.now) }
{
    used == 0 || book[used - 1] == 10
}

// How many bytes an order's sheet is, with one byte 10 first if the last line before it lacks it.
pub fn added_size(order: &[u8], layout: Layout, ended: bool) -> usize
    requires { LaidOut order.now layout }
    ensures { (result ≡ length (added_to ended (sheet (order_at order.now layout)))) × (result ≤ longest_sheet + 1) }
{
    let size = sheet_size(order, layout);
    if ended { size } else { size + 1 }
}

// Writes those bytes at the front of what is lent.
pub fn put_added(order: &[u8], layout: Layout, ended: bool, free: &mut [u8])
    requires { LaidOut order.now layout × (length (added_to ended (sheet (order_at order.now layout))) ≤ length free.old) }
    ensures { free.new ≡ laid free.old 0 (added_to ended (sheet (order_at order.now layout))) }
{
    if ended {
        put_sheet(order, layout, free);
    } else {
        free[0] = 10;
        put_sheet(order, layout, &mut free[1..]);
    }
}
