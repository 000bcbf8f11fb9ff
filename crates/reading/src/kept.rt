ghost use Rattle.std.specs.Prelude.{◌≡◌, ◌+◌, ◌*◌, ◌≤◌, IfSome, length};
ghost use Rattle.std.proofs.Math.Seq.{paste};
ghost use Rattle.text.specs.Limits.{text_limit};
ghost use Rattle.reading.specs.Walk.{state, HeadingOrEnd, NumberOf, far};
ghost use Rattle.reading.specs.Kept.{Keeps, GoesOn};

use crate::headings::{Turn, read_heading, read_headings, read_opening, walk};
use crate::sink::Sink;

// The records that stand in a store: so many, up to the heading line at `at` of number `line`, before which the heading of index `last` stands.
#[derive(Clone, Copy)]
pub struct Kept {
    pub at: usize,
    pub line: usize,
    pub last: usize,
    pub count: usize,
}

// The headings after what is kept too, as far as the store has room for them with their sections.
fn keep_headings(text: &[u8], opening: Kept, store: &mut [u32]) -> Kept
    requires { Keeps text.now store.old opening.at opening.line opening.last opening.count }
    ensures { Keeps text.now store.new result.at result.line result.last result.count }
{
    let mut kept = opening;
    while kept.at < text.len() {
        let sink = Sink::after(kept.count, true);
        let turn = read_heading(text, kept.at, kept.line, kept.last, store, sink);
        if turn.sink.stopped {
            break;
        }
        kept = Kept {
            at: turn.next,
            line: turn.line,
            last: kept.count,
            count: turn.sink.count,
        };
    }
    kept
}

// The first records of a text, as many as the store has room for, up to a heading line; none where the document and its own section have no room.
pub fn keep(text: &[u8], store: &mut [u32]) -> Option<Kept>
    requires { length text.now ≤ text_limit }
    ensures { IfSome result (λ k. Keeps text.now store.new k.at k.line k.last k.count) }
{
    let turn = read_opening(text, store, Sink::after(0, true));
    if turn.sink.stopped {
        return None;
    }
    let opening = Kept {
        at: turn.next,
        line: turn.line,
        last: 0,
        count: turn.sink.count,
    };
    Some(keep_headings(text, opening, store))
}

// The records after those that are kept, counted or written.
pub fn read_on(text: &[u8], kept: Option<Kept>, table: &mut [u32], writing: bool) -> Sink
    requires { (length text.now ≤ text_limit) × IfSome kept (λ k. HeadingOrEnd text.now k.at × (k.last ≤ far) × (k.count ≤ 2 * k.at + 2) × NumberOf text.now k.at k.line) }
    ensures { GoesOn text.now kept table.old writing (state table.new result) }
{
    let Some(k) = kept else {
        return walk(text, table, Sink::after(0, writing));
    };
    let from = Turn {
        next: k.at,
        sink: Sink::after(k.count, writing),
        line: k.line,
    };
    read_headings(text, from, k.last, table)
}

// The first numbers of a store, written to the front of a table. By a loop: with `copy_from_slice` the archive for C would need `memmove`, which a
// caller without a C library may not have.
pub fn copy(store: &[u32], n: usize, table: &mut [u32])
    requires { (n ≤ length store.now) × (n ≤ length table.old) }
    ensures { table.new ≡ paste table.old 0 store.now n }
{
    for i in 0..n {
        table[i] = store[i];
    }
}
