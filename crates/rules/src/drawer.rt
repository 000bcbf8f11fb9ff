ghost use Rattle.std.specs.Prelude.{◌≡◌};
ghost use Rattle.text.specs.Parts.{line_in};
ghost use Rattle.rules.specs.Places.{allows_properties};
ghost use Rattle.rules.specs.LineTests.{is_drawer_line};
ghost use Rattle.rules.specs.Elements.{drawer, property_drawer};
ghost use Rattle.rules.specs.Findings.{LineOf, InScope, rule_on};

use crate::closer::find_end;
use crate::kind;
use crate::place::Place;
use crate::property::{find_properties_end, is_between_colons};
use crate::rule::Element;
use crate::scope::Scope;
use text::bytes::{Class, run_end};
use text::line::LineSpan;
use text::word::is_word;

// Whether a place allows a property drawer.
#[tactic(auto, unfolding(crate::specs::Places::allows_properties))]
fn allows_properties(place: Place) -> bool
    ensures { result ≡ allows_properties place }
{
    !matches!(place, Place::Elsewhere | Place::InLine)
}

// A property drawer: node property lines only, up to the first `:END:`.  [01 rule 2]
pub fn try_property_drawer(text: &[u8], line: LineSpan, scope: Scope) -> Option<Element>
    requires { InScope text.now line scope }
    ensures { result ≡ rule_on (property_drawer scope.place) text.now line scope }
{
    if !allows_properties(scope.place) || !is_word(text, line.from, line.to, b":properties:") {
        return None;
    }
    let closer = find_properties_end(text, line.end, scope.end)?;
    Some(Element::of_lines_between(kind::PROPERTY_DRAWER, line.end, closer, 0))
}

// Whether a line's body is `:NAME:`, and NAME is not `END`.
pub fn is_drawer_line(text: &[u8], line: LineSpan, to: usize) -> bool
    requires { LineOf text.now line to }
    ensures { result ≡ is_drawer_line (line_in text.now line.start to) }
{
    let from = line.from;
    let end = line.to;
    if !is_between_colons(text, from, end) {
        return false;
    }
    if run_end(text, from + 1, end - 1, Class::Name) < end - 1 {
        return false;
    }
    !is_word(text, from + 1, end - 1, b"end")
}

// A drawer, where an `:END:` line stands before the end.  [01 rule 4]
pub fn try_drawer(text: &[u8], line: LineSpan, scope: Scope) -> Option<Element>
    requires { InScope text.now line scope }
    ensures { result ≡ rule_on drawer text.now line scope }
{
    if !scope.ends || !is_drawer_line(text, line, scope.end) {
        return None;
    }
    let closer = find_end(text, line.end, scope.end).closer?;
    Some(Element::of_lines_between(kind::DRAWER, line.end, closer, 0))
}
