// The list and the item at an item line, as elements.  [02 order 4]
ghost use Rattle.std.specs.Prelude.{◌≡◌, ◌+◌, ◌≤◌};
ghost use Rattle.text.specs.Limits.{text_limit};
ghost use Rattle.text.specs.Parts.{line_in};
ghost use Rattle.rules.specs.Items.{list_detail, item_start};
ghost use Rattle.rules.specs.Lists.{item, list_of};
ghost use Rattle.rules.specs.Findings.{LineOf, InScope, Parses};

use crate::ahead::Parsed;
use crate::item::{find_bullet, indent_width, item_start};
use crate::kind;
use crate::list::{item_end, list_end};
use crate::rule::Element;
use crate::scope::Scope;
use text::line::LineSpan;

// The detail of a list: 1 where its first item has a number or letter bullet, else 2.
fn list_detail(text: &[u8], line: LineSpan, to: usize) -> usize
    requires { LineOf text.now line to }
    ensures { result ≡ list_detail (line_in text.now line.start to) }
{
    if find_bullet(text, line.start, line.from, to).is_some_and(|bullet| bullet.numbered) {
        1
    } else {
        2
    }
}

// The list whose first line is an item line.
pub fn list_at(text: &[u8], line: LineSpan, scope: Scope) -> Parsed
    requires { InScope text.now line scope × (scope.end ≤ text_limit) }
    ensures { Parses list_of text.now line scope result }
{
    let width = indent_width(text, line.start, line.from);
    let further = list_end(text, line, width, scope);
    let run = further.run;
    Parsed {
        element: Element {
            kind: kind::LIST,
            end: run.end,
            own: run.lines,
            from: line.start,
            to: run.end,
            detail: list_detail(text, line, scope.end),
            lines: 0,
        },
        ends: further.ends,
        names: further.names,
    }
}

// Where what is left on an item line starts; its end where it has no bullet.
fn left_start(text: &[u8], line: LineSpan, to: usize) -> usize
    requires { LineOf text.now line to }
    ensures { result ≡ line.start + item_start (line_in text.now line.start to) }
{
    match find_bullet(text, line.start, line.from, to) {
        Some(bullet) => item_start(text, bullet.end, line.end),
        None => line.end,
    }
}

// The item whose first line is an item line.
pub fn item_at(text: &[u8], line: LineSpan, scope: Scope) -> Parsed
    requires { InScope text.now line scope × (scope.end ≤ text_limit) }
    ensures { Parses item text.now line scope result }
{
    let width = indent_width(text, line.start, line.from);
    let further = item_end(text, line.end, width, scope);
    let run = further.run;
    Parsed {
        element: Element {
            kind: kind::ITEM,
            end: run.end,
            own: run.lines + 1,
            from: left_start(text, line, scope.end),
            to: run.end,
            detail: 0,
            lines: 0,
        },
        ends: further.ends,
        names: further.names,
    }
}
