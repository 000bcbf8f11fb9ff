ghost use Rattle.std.specs.Prelude.{◌≡◌, ◌≤◌, length};
ghost use Rattle.text.specs.Parts.{part, line_in};
ghost use Rattle.rules.specs.Names.{number_in};
ghost use Rattle.rules.specs.Elements.{block, verbatim_names, greater_detail};
ghost use Rattle.rules.specs.Findings.{LineOf, InScope, Opens, number_found, rule_on};

use crate::closer::find_closer;
use crate::kind;
use crate::known::{ANY_NAME, has_name};
use crate::rule::Element;
use crate::scope::Scope;
use text::line::LineSpan;
use text::marks::word_end;
use text::word::{begins_with, is_word};

// The detail of the verbatim block of a name, where it is one of the five.
// A table searched with `position` would be no plainer: each detail were a place plus 1.
fn verbatim_detail(text: &[u8], from: usize, to: usize) -> Option<usize>
    requires { (from ≤ to) × (to ≤ length text.now) }
    ensures { result ≡ number_found (number_in verbatim_names 1 (part text.now from to)) }
{
    if is_word(text, from, to, b"comment") {
        return Some(1);
    }
    if is_word(text, from, to, b"example") {
        return Some(2);
    }
    if is_word(text, from, to, b"export") {
        return Some(3);
    }
    if is_word(text, from, to, b"src") {
        return Some(4);
    }
    if is_word(text, from, to, b"verse") {
        return Some(5);
    }
    None
}

// The detail of the greater block of a name.
fn greater_detail(text: &[u8], from: usize, to: usize) -> usize
    requires { (from ≤ to) × (to ≤ length text.now) }
    ensures { result ≡ greater_detail (part text.now from to) }
{
    if is_word(text, from, to, b"quote") {
        return 1;
    }
    if is_word(text, from, to, b"center") {
        return 2;
    }
    3
}

// Where the name stands of the block that a line opens: after `#+begin_`, up to a blank byte, and not empty.  [01 rule 3]
pub fn opened_name(text: &[u8], line: LineSpan, end: usize) -> Option<(usize, usize)>
    requires { LineOf text.now line end }
    ensures { Opens text.now (line_in text.now line.start end) result }
{
    if !begins_with(text, line.from, line.to, b"#+begin_") {
        return None;
    }
    let name = line.from + 8;
    let to = word_end(text, name, line.to);
    if to == name {
        return None;
    }
    Some((name, to))
}

// A block, where its closer stands before the end.  [01 rule 3]
pub fn try_block(text: &[u8], line: LineSpan, scope: Scope) -> Option<Element>
    requires { InScope text.now line scope }
    ensures { result ≡ rule_on block text.now line scope }
{
    let (name, to) = opened_name(text, line, scope.end)?;
    if scope.names != ANY_NAME && !has_name(scope.names, text, name, to) {
        return None;
    }
    let closer = find_closer(text, line.end, scope.end, b"#+end_", &text[name..to]).closer?;
    let (kind, detail) = match verbatim_detail(text, name, to) {
        Some(detail) => (kind::VERBATIM_BLOCK, detail),
        None => (kind::GREATER_BLOCK, greater_detail(text, name, to)),
    };
    Some(Element::of_lines_between(kind, line.end, closer, detail))
}
