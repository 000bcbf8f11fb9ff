ghost use Rattle.std.specs.Prelude.{◌≡◌, true, ℕ, ◌+◌, ◌≤◌, length, take};
ghost use Rattle.text.specs.Bytes.{is_non_blank};
ghost use Rattle.text.specs.Runs.{trim_end};
ghost use Rattle.text.specs.Lines.{size, indent, leading};
ghost use Rattle.text.specs.Parts.{lines_in, line_in};
ghost use Rattle.rules.specs.LineTests.{is_marked, line_test};
ghost use Rattle.rules.specs.Elements.{table, run_of};
ghost use Rattle.rules.specs.Kind.{inner_of, ownLines};
ghost use Rattle.rules.specs.Findings.{InScope, rule_on};

use crate::kind;
use crate::rule::Element;
use crate::scope::Scope;
use text::bytes::{Class, is_nonblank, run_end};
use text::line::{LineSpan, line_end};
use text::word::begins_with;

// A class of lines that stand together.
#[derive(Clone, Copy)]
pub enum LineClass {
    Row,
    Formula,
    Comment,
    FixedWidth,
}

// Whether c stands at a byte, and after it a blank byte, byte 10 or the end.
fn is_marked(text: &[u8], at: usize, to: usize, c: u8) -> bool
    requires { (to ≤ length text.now) × (is_non_blank c ≡ true) }
    ensures { result ≡ is_marked c (trim_end (line_in text.now at to)) }
{
    at < to && text[at] == c && (to <= at + 1 || !is_nonblank(text[at + 1]))
}

// Whether the line whose body starts at a byte is of a class: its first bytes tell, wherever it ends.
fn starts_line(text: &[u8], at: usize, to: usize, class: LineClass) -> bool
    requires { (at ≤ to) × (to ≤ length text.now) }
    ensures { (p : ℕ) → at ≡ p + indent (line_in text.now p to) → result ≡ line_test class (line_in text.now p to) }
{
    match class {
        LineClass::Row => at < to && text[at] == b'|',
        LineClass::Formula => begins_with(text, at, to, b"#+tblfm:"),
        LineClass::Comment => is_marked(text, at, to, b'#'),
        LineClass::FixedWidth => is_marked(text, at, to, b':'),
    }
}

// A run of lines: where it ends, and how many they are.
#[derive(Clone, Copy)]
pub struct LineRun {
    pub end: usize,
    pub lines: usize,
}

// The run of lines of a class.
pub fn lines_end(text: &[u8], from: usize, to: usize, class: LineClass) -> LineRun
    requires { (from ≤ to) × (to ≤ length text.now) }
    ensures end_value { result.end ≡ from + size (take (leading (line_test class) (lines_in text.now from to)) (lines_in text.now from to)) }
    ensures lines_value { result.lines ≡ leading (line_test class) (lines_in text.now from to) }
{
    let mut at = from;
    let mut n = 0;
    while at < to {
        let body = run_end(text, at, to, Class::Indent);
        if !starts_line(text, body, to, class) {
            return LineRun { end: at, lines: n };
        }
        at = line_end(text, body, to);
        n += 1;
    }
    LineRun { end: at, lines: n }
}

// A table: row lines, and the formula lines right after them.  [01 rule 5]
pub fn try_table(text: &[u8], line: LineSpan, scope: Scope) -> Option<Element>
    requires { InScope text.now line scope }
    ensures { result ≡ rule_on table text.now line scope }
{
    if !starts_line(text, line.from, scope.end, LineClass::Row) {
        return None;
    }
    let rows = lines_end(text, line.end, scope.end, LineClass::Row);
    let formulas = lines_end(text, rows.end, scope.end, LineClass::Formula);
    Some(Element {
        kind: kind::TABLE,
        end: formulas.end,
        own: rows.lines + 1 + formulas.lines,
        from: line.start,
        to: rows.end,
        detail: 0,
        lines: rows.lines + 1,
    })
}

// A comment or a fixed-width area: the run of lines of a class, as an element of a kind.  [01 rules 6 and 7]
pub fn try_run(
    text: &[u8],
    line: LineSpan,
    scope: Scope,
    class: LineClass,
    kind: usize,
) -> Option<Element>
    requires { InScope text.now line scope × (inner_of kind ≡ ownLines) }
    ensures { result ≡ rule_on (run_of (line_test class) kind) text.now line scope }
{
    if !starts_line(text, line.from, scope.end, class) {
        return None;
    }
    let run = lines_end(text, line.end, scope.end, class);
    Some(Element::of_run(kind, line.start, run))
}
