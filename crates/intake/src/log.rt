// A log: orders, each after its length in four bytes, low first.  [02 order 6]
ghost use Rattle.std.specs.Prelude.{◌≡◌};
ghost use Rattle.text.specs.Number;
ghost use Rattle.rules.specs.Items.{is_some};
ghost use Rattle.intake.specs.Book.{book_of};
ghost use Rattle.intake.specs.Log.{orders_in};
ghost use Rattle.intake.specs.Promises.{LogSettled, told_log};

use crate::call::intake;
use sheet::buffer::{find_sized, low_first};
use text::number;

// In how many bytes an order's length is given, as specs/Log has it.
const LOG_WIDTH: usize = 4;

// A log that is cut short.
#[derive(Clone, Copy)]
pub struct CutLog;

impl CutLog {
    // The number that C is given.
    pub fn number(self) -> u32
        ensures { result ≡ Number.cut_log }
    {
        number::CUT_LOG
    }
}

// Whether a log is whole: it ends with an order, or has none.
fn is_whole(log: &[u8]) -> bool
    ensures { result ≡ is_some (orders_in log.now) }
{
    let end = log.len();
    let mut at = 0;
    while at < end {
        let Some(order) = find_sized(log, at, LOG_WIDTH) else {
            return false;
        };
        at = order.to;
    }
    true
}

// Takes the orders of a log into a book in turn, and gives the bytes in use after them; those refused are passed over.
pub fn intake_log(book: &mut [u8], used: usize, log: &[u8]) -> Result<usize, CutLog>
    ensures { LogSettled (book_of book.old used) log.now (told_log used result) book.new }
{
    if !is_whole(log) {
        return Err(CutLog);
    }
    let mut at = 0;
    let mut reached = used;
    while at < log.len() {
        let from = at + LOG_WIDTH;
        let to = from + low_first(log, at, LOG_WIDTH);
        reached = intake(book, reached, &log[from..to]).unwrap_or(reached);
        at = to;
    }
    Ok(reached)
}
