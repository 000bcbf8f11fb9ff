// The first of rules 1 to 9 that holds at a line.
ghost use Rattle.std.specs.Prelude.{◌≡◌};
ghost use Rattle.rules.specs.Elements.{first_of, rules1to9};
ghost use Rattle.rules.specs.Findings.{InScope, wanting, rule_on};

use crate::block::try_block;
use crate::drawer::{try_drawer, try_property_drawer};
use crate::horizontal::try_horizontal_rule;
use crate::keyword::try_keyword;
use crate::kind;
use crate::lines::{LineClass, try_run, try_table};
use crate::planning::try_planning;
use crate::rule::Element;
use crate::scope::Scope;
use text::line::LineSpan;

// Rules 2, 4 and 7: those of a body that starts with `:`. Tried with `or_else`: the proof did not close.
fn try_colon(text: &[u8], line: LineSpan, scope: Scope) -> Option<Element>
    requires { InScope text.now line scope }
    ensures { result ≡ rule_on (first_of (wanting 58 (rules1to9 scope.place))) text.now line scope }
{
    if let Some(e) = try_property_drawer(text, line, scope) {
        return Some(e);
    }
    if let Some(e) = try_drawer(text, line, scope) {
        return Some(e);
    }
    try_run(text, line, scope, LineClass::FixedWidth, kind::FIXED_WIDTH)
}

// Rules 3, 6 and 9: those of a body that starts with `#`, likewise.
fn try_hash(text: &[u8], line: LineSpan, scope: Scope) -> Option<Element>
    requires { InScope text.now line scope }
    ensures { result ≡ rule_on (first_of (wanting 35 (rules1to9 scope.place))) text.now line scope }
{
    if let Some(e) = try_block(text, line, scope) {
        return Some(e);
    }
    if let Some(e) = try_run(text, line, scope, LineClass::Comment, kind::COMMENT) {
        return Some(e);
    }
    try_keyword(text, line, scope)
}

// The first of rules 1 to 9 that holds. The first byte after the indentation tells which can.
pub fn find_rule(text: &[u8], line: LineSpan, scope: Scope) -> Option<Element>
    requires { InScope text.now line scope }
    ensures { result ≡ rule_on (first_of (rules1to9 scope.place)) text.now line scope }
{
    let from = line.from;
    if line.to <= from {
        return None;
    }
    let first = text[from];
    match first {
        b'C'..=b'D' | b'c'..=b'd' | b'S' | b's' => try_planning(text, line, scope),
        b':' => try_colon(text, line, scope),
        b'#' => try_hash(text, line, scope),
        b'|' => try_table(text, line, scope),
        b'-' => try_horizontal_rule(text, line, scope),
        _ => None,
    }
}
