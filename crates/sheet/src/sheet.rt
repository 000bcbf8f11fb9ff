// The lines of a sheet, laid over an output.  [02 order 5]
ghost use Rattle.std.specs.Prelude.{◌+◌, ◌≤◌, length};
ghost use Rattle.text.specs.Parts.{part};
ghost use Rattle.sheet.specs.Sheet.{spaced, pair_line, pair_lines, join, sheet};
ghost use Rattle.sheet.specs.Output.{Puts};
ghost use Rattle.sheet.specs.Spans.{HasPairs, pairs_at, order_at, LaidOut, PairIn, pair_of};

use crate::buffer::TEXT_WIDTH;
use crate::layout::Layout;
use crate::output::{put, put_between};
use crate::pairs::{PairSpan, pair_at};

// A space and the value, unless the value is empty.
fn put_value(buffer: &[u8], value: usize, end: usize, out: &mut [u8], at: usize) -> usize
    requires { (value ≤ end) × (end ≤ length buffer.now) × (at + length (spaced (part buffer.now value end)) ≤ length out.old) }
    ensures { Puts out.old at (spaced (part buffer.now value end)) out.new result }
{
    if end <= value {
        return at;
    }
    let to = put(out, at, b" ");
    put(out, to, &buffer[value..end])
}

// The line of a pair.
fn put_pair(buffer: &[u8], pair: PairSpan, out: &mut [u8], at: usize) -> usize
    requires { PairIn buffer.now pair × (at + length (pair_line (pair_of buffer.now pair)) ≤ length out.old) }
    ensures { Puts out.old at (pair_line (pair_of buffer.now pair)) out.new result }
{
    let mut end = put_between(out, at, b":", &buffer[pair.from..pair.to], b":");
    end = put_value(buffer, pair.value, pair.end, out, end);
    put(out, end, b"\n")
}

// The lines of so many pairs.
fn put_pairs(buffer: &[u8], from: usize, count: usize, out: &mut [u8], at: usize) -> usize
    requires { HasPairs buffer.now from count × (at + length (join (pair_lines (pairs_at buffer.now from count))) ≤ length out.old) }
    ensures { Puts out.old at (join (pair_lines (pairs_at buffer.now from count))) out.new result }
{
    let mut here = from;
    let mut to = at;
    for _ in 0..count {
        let pair = pair_at(buffer, here);
        to = put_pair(buffer, pair, out, to);
        here = pair.end;
    }
    to
}

// The sheet, from the output's front on.
pub fn put_sheet(buffer: &[u8], layout: Layout, out: &mut [u8]) -> usize
    requires { LaidOut buffer.now layout × (length (sheet (order_at buffer.now layout)) ≤ length out.old) }
    ensures { Puts out.old 0 (sheet (order_at buffer.now layout)) out.new result }
{
    let title = layout.title;
    let mut to = put_between(out, 0, b"* ", &buffer[TEXT_WIDTH..title], b"\n");
    to = put(out, to, b":PROPERTIES:\n");
    to = put_pairs(buffer, title + 1, layout.count, out, to);
    put(out, to, b":END:\n")
}
