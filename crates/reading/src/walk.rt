ghost use Rattle.std.specs.Prelude.{◌≡◌, true, false, ◌+◌, ◌*◌, ◌≤◌, ◌<◌, length};
ghost use Rattle.text.specs.Limits.{depth_limit, text_limit};
ghost use Rattle.text.specs.LineNumbers.{line_number};
ghost use Rattle.text.specs.Parts.{lines_in};
ghost use Rattle.rules.specs.Known.{any_name};
ghost use Rattle.rules.specs.Findings.{LineOf};
ghost use Rattle.table.specs.Makers.{child_record};
ghost use Rattle.table.specs.Nesting.{depth_in};
ghost use Rattle.reading.specs.Walk.{Takes, entries_from, run_to, lines_to, section_of, section_entries, far, slack, slack_of};
ghost use Rattle.reading.specs.Walk.{scope_of, inner_place, inner_line, NumberOf, RangeIn, ElementIn, StepAt, SectionAt, record_of, with_held};

use crate::sink::{Sink, emit};
use rules::element::element_at;
use rules::kind;
use rules::known::ANY_NAME;
use rules::list_element::item_at;
use rules::place::{Place, first_place, next_place};
use rules::rule::Element;
use rules::scope::Scope;
use table::record::Record;
use text::bytes::{Class, run_end};
use text::line::{LineSpan, first_line, line_at};
use text::marks::word_end;
use text::word::begins_with;

// The record of a node property line, or of a row. Where its lines end, at `to`, is asked for the contract alone.
fn line_record(
    text: &[u8],
    line: LineSpan,
    to: usize,
    rows: bool,
    parent: usize,
    number: usize,
) -> Record
    requires { LineOf text.now line to × (number ≡ line_number text.now line.start) }
    ensures { result ≡ child_record text.now (lines_to rows to) parent line.start }
{
    let (kind, from, detail) = if rows {
        let rule = begins_with(text, line.from, line.to, b"|-");
        (kind::ROW, line.from, usize::from(rule))
    } else {
        let marker = word_end(text, line.from, line.to);
        let value = run_end(text, marker, line.to, Class::Blank);
        (kind::NODE_PROPERTY, value, 0)
    };
    Record {
        kind,
        start: line.start,
        end: line.end,
        from,
        to: line.to,
        parent,
        detail,
        line: number,
    }
}

// The lines of a property drawer, or the rows of a table: so many lines, which are enough to count them. `rows` is a flag and no closure, which would
// be no plainer: the contract names the container by it.
fn read_lines(
    text: &[u8],
    from: usize,
    to: usize,
    rows: bool,
    lines: usize,
    number: usize,
    depth: usize,
    parent: usize,
    table: &mut [u32],
    sink: Sink,
) -> Sink
    requires from_le_to { (from ≤ to) × (to ≤ length text.now) × (to ≤ text_limit) × (parent ≤ far) × (sink.count ≤ 2 * from + 3) }
    requires lines_value { (lines ≡ length (lines_in text.now from to)) × (depth ≤ depth_limit) × (sink.stopped ≡ false) × (from < to → number ≡ line_number text.now from) }
    ensures takes { Takes table.old sink (entries_from text.now (lines_to rows to) parent depth from sink.count) table.new result }
    ensures from_bound { result.count + from ≤ sink.count + to }
{
    if !sink.writing {
        return Sink {
            count: sink.count + lines,
            ..sink
        };
    }
    let mut at = from;
    let mut n = number;
    let mut out = sink;
    while at < to {
        let line = line_at(text, at, to);
        let r = line_record(text, line, to, rows, parent, n);
        out = emit(table, out, r, depth);
        at = line.end;
        n += 1;
    }
    out
}

// The depth of an element of a kind in a container of a depth.
fn depth_in(depth: usize, kind: usize) -> usize
    requires { depth ≤ depth_limit }
    ensures { result ≡ depth_in depth kind }
{
    if kind == kind::DRAWER || kind == kind::GREATER_BLOCK || kind == kind::LIST {
        depth + 1
    } else {
        depth
    }
}

// An element, where the next one starts, the line number there, and what its scope says besides the end.
#[derive(Clone, Copy)]
pub struct Step {
    pub e: Element,
    pub end: usize,
    pub line: usize,
    pub place: Place,
    pub ends: bool,
    pub names: u64,
}

// The element at a line of a range, or the item of a list's, and how to go on after it. The scope is taken apart here and in `read_elements`: as a
// struct it would cost every level of nesting some 50 bytes of stack. `items` is a flag for the reason that `rows` is one.
fn next_element(
    text: &[u8],
    at: usize,
    to: usize,
    items: bool,
    place: Place,
    ends: bool,
    names: u64,
    number: usize,
) -> Step
    requires { RangeIn text.now at items (scope_of to place ends names) × (at < to) × (number ≡ line_number text.now at) }
    ensures { StepAt text.now at to items result }
{
    let scope = Scope {
        end: to,
        place,
        ends,
        names,
    };
    let line = line_at(text, at, to);
    let parsed = if items {
        item_at(text, line, scope)
    } else {
        element_at(text, line, scope)
    };
    let e = parsed.element;
    let next = first_line(text, e.end, to);
    Step {
        e,
        end: next.at,
        line: number + e.own + next.lines,
        place: next_place(place, e.kind, next.at == e.end),
        ends: parsed.ends,
        names: parsed.names,
    }
}

// The sink, and the line number where what was read ends.
#[derive(Clone, Copy)]
pub struct Reached {
    pub sink: Sink,
    pub line: usize,
}

// The elements of a range, or the items of a list's, with all that they hold. Each is found by a call of its own, so that this function, which
// calls itself by way of `read_element`, keeps little on the stack.
#[cycle(read_element_read_elements)]
fn read_elements(
    text: &[u8],
    from: usize,
    to: usize,
    items: bool,
    place: Place,
    number: usize,
    depth: usize,
    parent: usize,
    table: &mut [u32],
    sink: Sink,
) -> Reached
    requires { RangeIn text.now from items (scope_of to place true any_name) × (depth ≤ depth_limit) × (parent ≤ far) × (sink.count ≤ 2 * from + 2 + slack items) × (from < to → number ≡ line_number text.now from) }
    ensures takes { Takes table.old sink (entries_from text.now (run_to items to) parent depth from sink.count) table.new result.sink }
    ensures from_bound { (result.sink.count + 2 * from ≤ sink.count + 2 * to) × (from < to → (result.sink.count + 2 * from + slack items ≤ sink.count + 2 * to) × NumberOf text.now to result.line) }
{
    if to <= from {
        return Reached { sink, line: number };
    }
    let mut at = from;
    let mut n = number;
    let mut out = sink;
    let mut step = next_element(text, from, to, items, place, true, ANY_NAME, n);
    loop {
        out = read_element(text, at, step.end, step.e, n, depth, parent, table, out);
        n = step.line;
        if to <= step.end {
            return Reached { sink: out, line: n };
        }
        at = step.end;
        let here = step.place;
        step = next_element(text, at, to, items, here, step.ends, step.names, n);
    }
}

// The line number of what stands first in an element at a line, after so many blank lines: the rows of a table, the items of a list and what is left
// on an item's line start with it, all else after its first line.
fn inner_line(number: usize, kind: usize, lines: usize) -> usize
    requires { (number ≤ far) × (lines ≤ far) }
    ensures { result ≡ inner_line kind number lines }
{
    if kind == kind::TABLE || kind == kind::LIST || kind == kind::ITEM {
        return number + lines;
    }
    number + 1 + lines
}

// The place of what stands first in an element, where its inner span starts or after blank lines: what is left on an item's line is inside it.
fn inner_place(kind: usize, tight: bool) -> Place
    ensures { result ≡ inner_place kind tight }
{
    if kind == kind::ITEM && tight {
        Place::InLine
    } else {
        Place::Elsewhere
    }
}

// One element from `at` to `end`, with all that it holds.
#[cycle(read_element_read_elements)]
fn read_element(
    text: &[u8],
    at: usize,
    end: usize,
    e: Element,
    number: usize,
    depth: usize,
    parent: usize,
    table: &mut [u32],
    sink: Sink,
) -> Sink
    requires { ElementIn text.now at end e × (depth ≤ depth_limit) × (parent ≤ far) × (sink.count ≤ 2 * at + 2 + slack_of e.kind) × (number ≡ line_number text.now at) }
    ensures takes { Takes table.old sink (with_held text.now (record_of text.now at end e parent) sink.count depth) table.new result }
    ensures kind_bound { result.count + 2 * at + slack_of e.kind ≤ sink.count + 2 * end }
{
    let index = sink.count;
    let kind = e.kind;
    let inner = depth_in(depth, kind);
    let r = Record {
        kind,
        start: at,
        end,
        from: e.from,
        to: e.to,
        parent,
        detail: e.detail,
        line: number,
    };
    let out = emit(table, sink, r, inner);
    if out.stopped {
        return out;
    }
    let rows = kind == kind::TABLE;
    if rows || kind == kind::PROPERTY_DRAWER {
        let first = first_line(text, e.from, e.to);
        let n = inner_line(number, kind, first.lines);
        return read_lines(
            text, first.at, e.to, rows, e.lines, n, inner, index, table, out,
        );
    }
    if inner <= depth && kind != kind::ITEM {
        return out;
    }
    let first = first_line(text, e.from, e.to);
    let n = inner_line(number, kind, first.lines);
    let place = inner_place(kind, first.at == e.from);
    read_elements(
        text,
        first.at,
        e.to,
        kind == kind::LIST,
        place,
        n,
        inner,
        index,
        table,
        out,
    )
    .sink
}

// The section from the line after a heading line, or from the text's start, up to the next heading line; none where all of it is blank.
pub fn read_section(
    text: &[u8],
    from: usize,
    to: usize,
    place: Place,
    number: usize,
    parent: usize,
    table: &mut [u32],
    sink: Sink,
) -> Reached
    requires { SectionAt text.now from to place × (parent ≤ far) × (sink.count ≤ 2 * from + 1) × NumberOf text.now from number × (number ≤ far) }
    ensures takes { Takes table.old sink (section_entries text.now (section_of from) parent sink.count) table.new result.sink }
    ensures from_bound { (result.sink.count + 2 * from ≤ sink.count + 2 * to + 1) × NumberOf text.now to result.line }
{
    let first = first_line(text, from, to);
    let at = first.at;
    let n = number + first.lines;
    if to <= at {
        return Reached { sink, line: n };
    }
    let here = first_place(place, from < at);
    let index = sink.count;
    let r = Record {
        kind: kind::SECTION,
        start: at,
        end: to,
        from: at,
        to,
        parent,
        detail: 0,
        line: n,
    };
    let out = emit(table, sink, r, 0);
    read_elements(text, at, to, false, here, n, 0, index, table, out)
}
