ghost use Rattle.std.specs.Prelude.{◌≡◌, true, [], ◌≤◌, length, get_or};
ghost use Rattle.text.specs.Bytes.{lower};
ghost use Rattle.text.specs.Limits.{text_limit};
ghost use Rattle.text.specs.Lines.{body};
ghost use Rattle.text.specs.Parts.{line_in};
ghost use Rattle.rules.specs.Elements.{rules3to9};
ghost use Rattle.rules.specs.Places.{allows_rules};
ghost use Rattle.rules.specs.Known.{Knows};
ghost use Rattle.rules.specs.FirstRule.{paragraph, element};
ghost use Rattle.rules.specs.Findings.{LineOf, InScope, Parses, wanting, paragraph_run};

use crate::ahead::{Further, Parsed, ends_after, names_after};
use crate::first_rule::find_rule;
use crate::item::is_item;
use crate::kind;
use crate::lines::LineRun;
use crate::list_element::list_at;
use crate::place::Place;
use crate::rule::Element;
use crate::scope::Scope;
use text::bytes::{Class, is_name, run_end};
use text::line::{LineSpan, line_at, line_end};

// Whether a byte is a letter, a digit, `_` or above ASCII. A line whose body starts with one is not blank, and none of rules 3 to 9 wants it.
fn starts_text(b: u8) -> bool
    ensures { result ≡ true → (b ≡ 13 → ⊥) × (wanting (lower b) rules3to9 ≡ []) }
{
    if 128 <= b {
        return true;
    }
    is_name(b) && b != b'-'
}

// The further lines of a paragraph: up to a blank line, the end, a line where a rule holds, or an item line.  [01 rule 10, 02 order 4]
// The first byte after the indentation spares most lines the search for a rule.
fn paragraph_lines(text: &[u8], from: usize, scope: Scope) -> Further
    requires { (from ≤ scope.end) × (scope.end ≤ length text.now) × Knows text.now from scope.end scope.ends scope.names }
    ensures { (result.run ≡ paragraph_run text.now from scope.end 0) × Knows text.now result.run.end scope.end result.ends result.names }
{
    let to = scope.end;
    let mut at = from;
    let mut n = 0;
    let mut ends = scope.ends;
    let mut names = scope.names;
    while at < to {
        let body = run_end(text, at, to, Class::Indent);
        if to <= body {
            break;
        }
        let first = text[body];
        if first == 10 {
            break;
        }
        if is_item(text, at, body, to) {
            break;
        }
        if starts_text(first) {
            at = line_end(text, body, to);
            n += 1;
        } else {
            let line = line_at(text, at, to);
            if line.to <= line.from {
                break;
            }
            let here = Scope {
                end: to,
                place: Place::Elsewhere,
                ends,
                names,
            };
            if find_rule(text, line, here).is_some() {
                break;
            }
            if first == b':' {
                ends = ends_after(text, line, here);
            }
            if first == b'#' {
                names = names_after(text, line, here);
            }
            at = line.end;
            n += 1;
        }
    }
    Further {
        run: LineRun { end: at, lines: n },
        ends,
        names,
    }
}

// The first byte of a line's body; 0 where it has none.
fn first_byte(text: &[u8], line: LineSpan, to: usize) -> u8
    requires { LineOf text.now line to }
    ensures { result ≡ get_or (body (line_in text.now line.start to)) 0 0 }
{
    let from = line.from;
    if line.to <= from { 0 } else { text[from] }
}

// The paragraph at a line.  [01 rule 10]
fn paragraph_at(text: &[u8], line: LineSpan, scope: Scope) -> Parsed
    requires { InScope text.now line scope }
    ensures { Parses paragraph text.now line scope result }
{
    let first = first_byte(text, line, scope.end);
    let mut ends = scope.ends;
    let mut names = scope.names;
    if first == b':' {
        ends = ends_after(text, line, scope);
    }
    if first == b'#' {
        names = names_after(text, line, scope);
    }
    let rest = Scope {
        end: scope.end,
        place: Place::Elsewhere,
        ends,
        names,
    };
    let further = paragraph_lines(text, line.end, rest);
    Parsed {
        element: Element::of_run(kind::PARAGRAPH, line.start, further.run),
        ends: further.ends,
        names: further.names,
    }
}

// Whether rules are tried at a place: not inside a line.
#[tactic(auto, unfolding(crate::specs::Places::allows_rules))]
fn allows_rules(place: Place) -> bool
    ensures { result ≡ allows_rules place }
{
    !matches!(place, Place::InLine)
}

// The element at a line: what the first of rules 1 to 9a that holds finds, else a paragraph. Inside a line only a paragraph starts.
pub fn element_at(text: &[u8], line: LineSpan, scope: Scope) -> Parsed
    requires { InScope text.now line scope × (scope.end ≤ text_limit) }
    ensures { Parses (element scope.place) text.now line scope result }
{
    if allows_rules(scope.place) {
        if let Some(e) = find_rule(text, line, scope) {
            return Parsed {
                element: e,
                ends: scope.ends,
                names: scope.names,
            };
        }
        if is_item(text, line.start, line.from, scope.end) {
            return list_at(text, line, scope);
        }
    }
    paragraph_at(text, line, scope)
}
