ghost use Rattle.std.specs.Prelude.{◌≤◌, ◌<◌, ◌^◌, length};
ghost use Rattle.text.specs.Limits.{text_limit};
ghost use Rattle.reading.specs.Promises.{Settled};

use crate::answer::Refusal;
use crate::kept::{copy, keep, read_on};
use table::record;
use text::limit;

// A text of at most so many bytes is small: its store, which each call clears, has room for 256 records, and that of any other for 1,900.
const SMALL_TEXT: usize = 4096;

const SMALL_STORE: usize = 2048;

const STORE: usize = 15200;

// Reads a text into a lent table, eight numbers a record. Tries in turn: the text is over 65,536 bytes; a drawer, greater block or list lies at
// depth 33 or more; the table has too little room. A refusal leaves the table as it was: all is counted before anything is written.
pub fn read(text: &[u8], table: &mut [u32]) -> Result<usize, Refusal>
    ensures { Settled text.now table.old result table.new }
{
    if limit::TEXT < text.len() {
        return Err(Refusal::TooLong);
    }
    if text.len() <= SMALL_TEXT {
        return read_in::<SMALL_STORE>(text, table);
    }
    read_in::<STORE>(text, table)
}

// The reading, with a store of so many numbers.
fn read_in<const N: usize>(text: &[u8], table: &mut [u32]) -> Result<usize, Refusal>
    requires { (length text.now ≤ text_limit) × (N < 2 ^ 16) }
    ensures { Settled text.now table.old result table.new }
{
    let mut store = [0u32; N];
    read_with(text, &mut store, table)
}

// The reading, with a store. The count keeps the first records there, so that the parts of the text that they come from are not read again to
// write them.
fn read_with(text: &[u8], store: &mut [u32], table: &mut [u32]) -> Result<usize, Refusal>
    requires { length text.now ≤ text_limit }
    ensures { Settled text.now table.old result table.new }
{
    let kept = keep(text, store);
    let counted = read_on(text, kept, table, false);
    if counted.stopped {
        return Err(Refusal::TooDeep);
    }
    let count = counted.count;
    if table.len() / record::SIZE < count {
        return Err(Refusal::NoRoom(count));
    }
    if let Some(k) = kept {
        copy(store, k.count * record::SIZE, table);
    }
    read_on(text, kept, table, true);
    Ok(count)
}
