ghost use Rattle.std.specs.Prelude.{◌≡◌};
ghost use Rattle.text.specs.Parts.{line_in};
ghost use Rattle.rules.specs.Places.{allows_planning};
ghost use Rattle.rules.specs.LineTests.{is_planning};
ghost use Rattle.rules.specs.Elements.{planning};
ghost use Rattle.rules.specs.Findings.{LineOf, InScope, rule_on};

use crate::kind;
use crate::place::Place;
use crate::rule::Element;
use crate::scope::Scope;
use text::line::LineSpan;

// Whether a line's body is dates all through.  [01 rule 1, 02 order 1]
pub fn is_planning(text: &[u8], line: LineSpan, to: usize) -> bool
    requires { LineOf text.now line to }
    ensures { result ≡ is_planning (line_in text.now line.start to) }
{
    dates::planning::is_planning(text, line.from, line.to)
}

// Whether a place allows a planning line.
#[tactic(auto, unfolding(crate::specs::Places::allows_planning))]
fn allows_planning(place: Place) -> bool
    ensures { result ≡ allows_planning place }
{
    matches!(place, Place::AfterHeading)
}

// A planning line.  [01 rule 1]
pub fn try_planning(text: &[u8], line: LineSpan, scope: Scope) -> Option<Element>
    requires { InScope text.now line scope }
    ensures { result ≡ rule_on (planning scope.place) text.now line scope }
{
    if !allows_planning(scope.place) || !is_planning(text, line, scope.end) {
        return None;
    }
    Some(Element::of_line(kind::PLANNING, line, line.from))
}
