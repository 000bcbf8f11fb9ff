ghost use Rattle.std.specs.Prelude.{◌≡◌, ◌≤◌, length};
ghost use Rattle.text.specs.Limits.{text_limit};
ghost use Rattle.sheet.specs.Spans.{LaidOut, order_at};
ghost use Rattle.intake.specs.declared.call.Refusal.TheVariants as Refusals;
ghost use Rattle.intake.specs.Book.{book_of};
ghost use Rattle.intake.specs.Call as spec;
ghost use Rattle.intake.specs.Promises.{Answers, Settled, refusal_number, told};
ghost use Rattle.intake.specs.Spans.{Appends};

use crate::book::{added_size, is_ended, put_added};
use crate::required::find_filled;
use crate::seen::is_seen;
use sheet::judge::{Fault, judge};
use sheet::layout::Layout;
use text::{limit, number};

// Why an order is not taken: a fault of the order, `REQUEST` or `VIN` missing or empty, bytes in use over the buffer or over 65,536, a request that
// is seen, a new book over 65,536 bytes, or no room.
#[derive(Clone, Copy)]
pub enum Refusal {
    Fault(Fault),
    MissingKey,
    BadUsed,
    Seen,
    TooLong,
    ShortOutput,
}

impl From<Fault> for Refusal {
    ghost from_gives = { λ f r. r ≡ Refusals.Fault f };

    fn from(fault: Fault) -> Refusal {
        Refusal::Fault(fault)
    }
}

impl Refusal {
    // The number that C is given.
    pub fn number(self) -> u32
        ensures { result ≡ refusal_number self }
    {
        match self {
            Refusal::Fault(fault) => fault.number(),
            Refusal::MissingKey => number::MISSING_KEY,
            Refusal::BadUsed => number::BAD_USED,
            Refusal::Seen => number::SEEN,
            Refusal::TooLong => number::TOO_LONG,
            Refusal::ShortOutput => number::SHORT_OUTPUT,
        }
    }
}

// Writes a good order's sheet after the bytes in use, if the new book is not too long and there is room: that part of the book alone is lent.
fn append(book: &mut [u8], used: usize, order: &[u8], layout: Layout) -> Result<usize, Refusal>
    requires { LaidOut order.now layout × (used ≤ length book.old) × (used ≤ text_limit) }
    ensures { Appends (book_of book.old used) (order_at order.now layout) (told used result) book.new }
{
    let ended = is_ended(book, used);
    let end = used + added_size(order, layout, ended);
    if limit::TEXT < end {
        return Err(Refusal::TooLong);
    }
    if book.len() < end {
        return Err(Refusal::ShortOutput);
    }
    put_added(order, layout, ended, &mut book[used..]);
    Ok(end)
}

// Takes a good order. Tries in turn: `REQUEST` or `VIN` is missing or empty; the bytes in use are over the buffer or over 65,536; the request is
// seen.
fn take_good(book: &mut [u8], used: usize, order: &[u8], layout: Layout) -> Result<usize, Refusal>
    requires { LaidOut order.now layout }
    ensures { Answers (told used result) book.new (spec.taken (book_of book.old used) (order_at order.now layout)) }
{
    let Some(request) = find_filled(order, layout, b"REQUEST") else {
        return Err(Refusal::MissingKey);
    };
    let Some(_) = find_filled(order, layout, b"VIN") else {
        return Err(Refusal::MissingKey);
    };
    if book.len() < used || limit::TEXT < used {
        return Err(Refusal::BadUsed);
    }
    if is_seen(&book[..used], &order[request.from..request.to]) {
        return Err(Refusal::Seen);
    }
    append(book, used, order, layout)
}

// Takes an order into a book after its bytes in use; gives the bytes in use after it, and on a refusal they stay. Tries in turn: the order's faults,
// and what `take_good` and `append` try.
pub fn intake(book: &mut [u8], used: usize, order: &[u8]) -> Result<usize, Refusal>
    ensures { Settled (book_of book.old used) order.now (told used result) book.new }
{
    let layout = judge(order)?;
    take_good(book, used, order, layout)
}
