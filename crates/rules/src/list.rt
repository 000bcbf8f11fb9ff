// Scans for the lines of an item and of a list.  [02 order 4]
ghost use Rattle.std.specs.Prelude.{◌≡◌, Some, ◌≤◌, length};
ghost use Rattle.text.specs.Limits.{text_limit};
ghost use Rattle.text.specs.Lines.{blanks};
ghost use Rattle.text.specs.Parts.{lines_in, first_line};
ghost use Rattle.rules.specs.Findings.{InScope};
ghost use Rattle.rules.specs.Scans.{together_run, item_run, list_run, next_of, Tells, Stretches, LinesFrom, StartsIn, ListIn};

use crate::ahead::{Further, ends_after, names_after};
use crate::first_rule::find_rule;
use crate::item::{indent_width, is_item};
use crate::kind;
use crate::lines::LineRun;
use crate::place::Place;
use crate::scope::Scope;
use text::bytes::{Class, is_nonblank, run_end};
use text::line::{FirstLine, LineSpan, first_line, line_at, line_end};

// The lines that stand or fall with a line in an item: those of the block, drawer or table that it starts; else it alone. The kinds up to a table
// are theirs, and those of elements that are of one line, or a drawer as well.
pub fn together_end(text: &[u8], line: LineSpan, scope: Scope) -> Further
    requires { InScope text.now line scope }
    ensures { Tells text.now scope.end (together_run text.now line.start scope.end) result }
{
    if let Some(e) = find_rule(text, line, scope) {
        if e.kind <= kind::TABLE {
            return Further {
                run: LineRun {
                    end: e.end,
                    lines: e.own,
                },
                ends: scope.ends,
                names: scope.names,
            };
        }
    }
    Further {
        run: LineRun {
            end: line.end,
            lines: 1,
        },
        ends: ends_after(text, line, scope),
        names: names_after(text, line, scope),
    }
}

// The same, by the first byte of the line's body: most lines stand alone, and all that is asked is where they end.
fn lines_together(text: &[u8], start: usize, body: usize, scope: Scope) -> Further
    requires { StartsIn text.now start body scope }
    ensures { Tells text.now scope.end (together_run text.now start scope.end) result }
{
    let first = text[body];
    match first {
        b'#' | b':' | b'|' => together_end(text, line_at(text, start, scope.end), scope),
        _ => Further {
            run: LineRun {
                end: line_end(text, body, scope.end),
                lines: 1,
            },
            ends: scope.ends,
            names: scope.names,
        },
    }
}

// The next line that is not blank: where it and its body start, its indentation, and how many blank lines stand before it, one at most.
#[derive(Clone, Copy)]
pub struct Next {
    pub start: usize,
    pub body: usize,
    pub width: usize,
    pub blanks: usize,
}

// The first non-blank line from a byte on, as `first_line` finds it. Mostly it is the line at the byte, which the byte after its indentation tells.
fn first_from(text: &[u8], at: usize, to: usize) -> FirstLine
    requires { (at ≤ to) × (to ≤ length text.now) }
    ensures { (result.at ≡ first_line text.now at to) × (result.lines ≡ blanks (lines_in text.now at to)) }
{
    let body = run_end(text, at, to, Class::Indent);
    if body < to && is_nonblank(text[body]) {
        return FirstLine { at, lines: 0 };
    }
    first_line(text, at, to)
}

// The line at a byte, or after one blank line: an item or a list may go on with it. Two blank lines together end both.
fn find_next(text: &[u8], at: usize, to: usize) -> Option<Next>
    requires { (at ≤ to) × (to ≤ length text.now) × (to ≤ text_limit) }
    ensures { result ≡ next_of text.now at to }
{
    let first = first_from(text, at, to);
    let start = first.at;
    if to <= start {
        return None;
    }
    if 1 < first.lines {
        return None;
    }
    let body = run_end(text, start, to, Class::Indent);
    Some(Next {
        start,
        body,
        width: indent_width(text, start, body),
        blanks: first.lines,
    })
}

// Lines of an item: all that it has, or the first of them, after which it goes on.
#[derive(Clone, Copy)]
pub enum Stretch {
    Whole(LineRun),
    Begun(LineRun),
}

// The lines of an item before the first that may start a block, drawer or table: most items have none. This loop and the three below end at
// different lines and carry different things, so one with the steps as closures were no plainer.
fn lines_alone(text: &[u8], from: usize, width: usize, to: usize) -> Stretch
    requires { (from ≤ to) × (to ≤ length text.now) × (to ≤ text_limit) }
    ensures { Stretches text.now from to width result }
{
    let mut at = from;
    let mut n = 0;
    while let Some(line) = find_next(text, at, to) {
        if line.width <= width {
            break;
        }
        if matches!(text[line.body], b'#' | b':' | b'|') {
            return Stretch::Begun(LineRun { end: at, lines: n });
        }
        at = line_end(text, line.body, to);
        n += line.blanks + 1;
    }
    Stretch::Whole(LineRun { end: at, lines: n })
}

// Lines up to the end: where each is indented more than the item, and no two blank lines stand before one, they are the item's, whatever blocks,
// drawers and tables there are, and no closer need be sought.
fn lines_to_end(text: &[u8], from: usize, width: usize, to: usize) -> Option<LineRun>
    requires { (from ≤ to) × (to ≤ length text.now) × (to ≤ text_limit) }
    ensures { (run : LineRun) → result ≡ Some run → run ≡ item_run text.now from to width }
{
    let mut at = from;
    let mut n = 0;
    loop {
        let first = first_from(text, at, to);
        let start = first.at;
        if to <= start {
            return Some(LineRun { end: at, lines: n });
        }
        let body = run_end(text, start, to, Class::Indent);
        if 1 < first.lines || indent_width(text, start, body) <= width {
            return None;
        }
        at = line_end(text, body, to);
        n += first.lines + 1;
    }
}

// The further lines of an item, by the closers of the blocks and drawers in it.
fn lines_by_closers(text: &[u8], from: usize, width: usize, scope: Scope) -> Further
    requires { LinesFrom text.now from scope }
    ensures { Tells text.now scope.end (item_run text.now from scope.end width) result }
{
    let to = scope.end;
    let mut at = from;
    let mut n = 0;
    let mut ends = scope.ends;
    let mut names = scope.names;
    while let Some(next) = find_next(text, at, to) {
        if next.width <= width {
            break;
        }
        let here = Scope {
            end: to,
            place: Place::Elsewhere,
            ends,
            names,
        };
        let further = lines_together(text, next.start, next.body, here);
        let run = further.run;
        at = run.end;
        n += next.blanks + run.lines;
        ends = further.ends;
        names = further.names;
    }
    Further {
        run: LineRun { end: at, lines: n },
        ends,
        names,
    }
}

// The further lines of an item from one that may start a block, drawer or table: closers are sought only where it matters what they close.
fn item_rest(text: &[u8], from: usize, width: usize, scope: Scope) -> Further
    requires { LinesFrom text.now from scope }
    ensures { Tells text.now scope.end (item_run text.now from scope.end width) result }
{
    match lines_to_end(text, from, width, scope.end) {
        Some(run) => Further {
            run,
            ends: scope.ends,
            names: scope.names,
        },
        None => lines_by_closers(text, from, width, scope),
    }
}

// The further lines of an item: up to a line that is indented no more, two blank lines, or the end.
pub fn item_end(text: &[u8], from: usize, width: usize, scope: Scope) -> Further
    requires { LinesFrom text.now from scope }
    ensures { Tells text.now scope.end (item_run text.now from scope.end width) result }
{
    match lines_alone(text, from, width, scope.end) {
        Stretch::Whole(run) => Further {
            run,
            ends: scope.ends,
            names: scope.names,
        },
        Stretch::Begun(begun) => {
            let further = item_rest(text, begun.end, width, scope);
            let run = further.run;
            Further {
                run: LineRun {
                    end: run.end,
                    lines: begun.lines + run.lines,
                },
                ends: further.ends,
                names: further.names,
            }
        }
    }
}

// The own lines of a list, from its first line on: items of its indentation in a row, no two blank lines together between them.
pub fn list_end(text: &[u8], line: LineSpan, width: usize, scope: Scope) -> Further
    requires { ListIn text.now line width scope }
    ensures { Tells text.now scope.end (list_run text.now line.start scope.end) result }
{
    let to = scope.end;
    let mut at = line.end;
    let mut n = 1;
    let mut ends = scope.ends;
    let mut names = scope.names;
    loop {
        let here = Scope {
            end: to,
            place: Place::Elsewhere,
            ends,
            names,
        };
        let further = item_end(text, at, width, here);
        let run = further.run;
        at = run.end;
        n += run.lines;
        ends = further.ends;
        names = further.names;
        let Some(next) = find_next(text, at, to) else {
            break;
        };
        if next.width != width {
            break;
        }
        if !is_item(text, next.start, next.body, to) {
            break;
        }
        at = line_end(text, next.body, to);
        n += next.blanks + 1;
    }
    Further {
        run: LineRun { end: at, lines: n },
        ends,
        names,
    }
}
