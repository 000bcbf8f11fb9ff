// How long a sheet is, worked out before anything is written.  [02 order 5]
ghost use Rattle.std.specs.Prelude.{◌≡◌, ◌*◌, ◌≤◌, length};
ghost use Rattle.sheet.specs.Buffer.{pair_limit};
ghost use Rattle.sheet.specs.Sheet.{pair_line, pair_lines, join, sheet};
ghost use Rattle.sheet.specs.Spans.{HasPairs, pairs_at, order_at, LaidOut, PairIn, pair_of, longest, longest_sheet};

use crate::buffer::TEXT_WIDTH;
use crate::layout::Layout;
use crate::pairs::{PairSpan, pair_at};

// What the title's line has besides the title: a star, a space and byte 10.
const TITLE_MARKS: usize = 3;

// What a pair's line has besides key and value: two colons and byte 10; and a space before a value that is not empty.
const PAIR_MARKS: usize = 3;

const SPACE: usize = 1;

// The lines around the pairs, `:PROPERTIES:` and `:END:`.
const DRAWER_LINES: usize = 19;

fn pair_size(buffer: &[u8], pair: PairSpan) -> usize
    requires { PairIn buffer.now pair }
    ensures { (result ≡ length (pair_line (pair_of buffer.now pair))) × (result ≤ longest) }
{
    let marked = pair.to - pair.from + PAIR_MARKS;
    if pair.end <= pair.value {
        return marked;
    }
    marked + SPACE + (pair.end - pair.value)
}

fn pairs_size(buffer: &[u8], from: usize, count: usize) -> usize
    requires { HasPairs buffer.now from count × (count ≤ pair_limit) }
    ensures { (result ≡ length (join (pair_lines (pairs_at buffer.now from count)))) × (result ≤ longest * count) }
{
    let mut at = from;
    let mut size = 0;
    for _ in 0..count {
        let pair = pair_at(buffer, at);
        size += pair_size(buffer, pair);
        at = pair.end;
    }
    size
}

pub fn sheet_size(buffer: &[u8], layout: Layout) -> usize
    requires { LaidOut buffer.now layout }
    ensures { (result ≡ length (sheet (order_at buffer.now layout))) × (result ≤ longest_sheet) }
{
    let title = layout.title;
    let line = title - TEXT_WIDTH + TITLE_MARKS;
    line + DRAWER_LINES + pairs_size(buffer, title + 1, layout.count)
}
