ghost use Rattle.std.specs.Prelude.{◌≡◌};
ghost use Rattle.rules.specs.Elements.{horizontal_rule};
ghost use Rattle.rules.specs.Findings.{InScope, rule_on};

use crate::kind;
use crate::rule::Element;
use crate::scope::Scope;
use text::bytes::{Class, run_end};
use text::line::LineSpan;

// A horizontal rule: five hyphens or more.  [01 rule 8]
pub fn try_horizontal_rule(text: &[u8], line: LineSpan, scope: Scope) -> Option<Element>
    requires { InScope text.now line scope }
    ensures { result ≡ rule_on horizontal_rule text.now line scope }
{
    if line.to - line.from < 5 {
        return None;
    }
    if run_end(text, line.from, line.to, Class::Hyphen) < line.to {
        return None;
    }
    Some(Element::of_line(kind::HORIZONTAL_RULE, line, line.from))
}
