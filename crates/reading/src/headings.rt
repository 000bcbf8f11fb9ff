ghost use Rattle.std.specs.Prelude.{◌≡◌, ◌+◌, ◌*◌, ◌≤◌, ◌<◌, length};
ghost use Rattle.text.specs.Limits.{text_limit};
ghost use Rattle.text.specs.LineNumbers.{line_number};
ghost use Rattle.text.specs.Parts.{next_line};
ghost use Rattle.rules.specs.Headings.{is_heading};
ghost use Rattle.reading.specs.Walk.{state, Takes, opening_entries, heading_entry, headings_from, reading_entries, Small, HeadingLine, HeadingOrEnd, NumberOf, far};
ghost use Rattle.reading.specs.Tracked.{parent_in, Earlier, last_index, Tracked};
ghost use Rattle.table.specs.Sections.{line_at};
ghost use Rattle.table.specs.Makers.{heading_record};

use crate::sink::{Sink, emit};
use crate::walk::read_section;
use rules::heading::{heading_stars, next_heading};
use rules::kind;
use rules::place::Place;
use table::record;
use table::record::Record;
use text::line::line_end;

// From a heading record of the table up its parents to the first with fewer stars; 0, the document, where there is none.
fn find_parent(table: &[u32], from: usize, stars: usize) -> usize
    requires { from ≤ far }
    ensures value { result ≡ parent_in table.now from stars }
    ensures upper_bound { result ≤ from }
{
    let mut at = from;
    while 0 < at {
        let row = at * record::SIZE;
        if table.len() < row + record::SIZE {
            return 0;
        }
        if (table[row + record::DETAIL] as usize) < stars {
            return at;
        }
        let parent = table[row + record::PARENT] as usize;
        if at <= parent {
            return 0;
        }
        at = parent;
    }
    at
}

// The record of the heading line at a byte, whose line ends at `inner` and whose section ends at `next`. `last` is the heading before it.
fn heading_record(
    text: &[u8],
    table: &[u32],
    at: usize,
    inner: usize,
    next: usize,
    stars: usize,
    last: usize,
    number: usize,
) -> Record
    requires { HeadingLine text.now at inner next stars × (last ≤ far) × (number ≡ line_number text.now at) }
    ensures value { result ≡ heading_record text.now (parent_in table.now last stars) at }
    ensures small { Small result }
{
    let end = next_heading(text, next, stars);
    Record {
        kind: kind::HEADING,
        start: at,
        end,
        from: inner,
        to: end,
        parent: find_parent(table, last, stars),
        detail: stars,
        line: number,
    }
}

// Where the next heading line starts, or the text's end, and the sink and the line number there.
#[derive(Clone, Copy)]
pub struct Turn {
    pub next: usize,
    pub sink: Sink,
    pub line: usize,
}

// The heading at a heading line and its section. `last` is the heading before it.
pub fn read_heading(
    text: &[u8],
    at: usize,
    number: usize,
    last: usize,
    table: &mut [u32],
    sink: Sink,
) -> Turn
    requires { HeadingOrEnd text.now at × (at < length text.now) × (last ≤ far) × (sink.count ≤ 2 * at + 2) × (number ≡ line_number text.now at) }
    ensures at_lt_next { (at < result.next) × (result.next ≡ next_line is_heading text.now (at + length (line_at text.now at))) × (result.sink.count ≤ 2 * result.next + 2) × NumberOf text.now result.next result.line }
    ensures takes { (hs : Earlier) → last ≡ last_index hs → Tracked (state table.old sink) hs → Takes table.old sink (heading_entry text.now hs at sink.count) table.new result.sink }
{
    let end = text.len();
    let stars = heading_stars(text, at, end);
    let inner = line_end(text, at, end);
    let next = next_heading(text, inner, end);
    let index = sink.count;
    let r = if sink.writing {
        heading_record(text, table, at, inner, next, stars, last, number)
    } else {
        Record::default()
    };
    let out = emit(table, sink, r, 0);
    let section = read_section(
        text,
        inner,
        next,
        Place::AfterHeading,
        number + 1,
        index,
        table,
        out,
    );
    Turn {
        next,
        sink: section.sink,
        line: section.line,
    }
}

// The headings from a heading line on. `before` is the heading before them.
pub fn read_headings(text: &[u8], from: Turn, before: usize, table: &mut [u32]) -> Sink
    requires { HeadingOrEnd text.now from.next × (before ≤ far) × (from.sink.count ≤ 2 * from.next + 2) × NumberOf text.now from.next from.line }
    ensures { (hs : Earlier) → before ≡ last_index hs → Tracked (state table.old from.sink) hs → Takes table.old from.sink (headings_from text.now hs from.next from.sink.count) table.new result }
{
    let mut turn = from;
    let mut last = before;
    while turn.next < text.len() {
        let index = turn.sink.count;
        turn = read_heading(text, turn.next, turn.line, last, table, turn.sink);
        last = index;
    }
    turn.sink
}

// The document and the zeroth section.
pub fn read_opening(text: &[u8], table: &mut [u32], sink: Sink) -> Turn
    requires { (length text.now ≤ text_limit) × (sink.count ≡ 0) }
    ensures next_value { (result.next ≡ next_line is_heading text.now 0) × (result.sink.count ≤ 2 * result.next + 2) × NumberOf text.now result.next result.line }
    ensures takes { Takes table.old sink (opening_entries text.now) table.new result.sink }
{
    let end = text.len();
    let r = Record {
        kind: kind::DOCUMENT,
        end,
        to: end,
        ..Record::default()
    };
    let out = emit(table, sink, r, 0);
    let first = next_heading(text, 0, end);
    let section = read_section(text, 0, first, Place::Opening, 0, 0, table, out);
    Turn {
        next: first,
        sink: section.sink,
        line: section.line,
    }
}

// The whole text.
pub fn walk(text: &[u8], table: &mut [u32], sink: Sink) -> Sink
    requires { (length text.now ≤ text_limit) × (sink.count ≡ 0) }
    ensures { Takes table.old sink (reading_entries text.now) table.new result }
{
    let turn = read_opening(text, table, sink);
    read_headings(text, turn, 0, table)
}
