ghost use Rattle.std.specs.Prelude.{◌≡◌, ◌+◌, ◌≤◌, length};
ghost use Rattle.text.specs.Parts.{part};
ghost use Rattle.rules.specs.Names.{through_colon};
ghost use Rattle.rules.specs.Elements.{keyword};
ghost use Rattle.rules.specs.Findings.{InScope, rule_on};

use crate::kind;
use crate::rule::Element;
use crate::scope::Scope;
use text::bytes::{Class, run_end};
use text::line::LineSpan;
use text::marks::word_end;
use text::word::begins_with;

// One past the last colon of a part, or the part's start where there is none.
fn after_last_colon(text: &[u8], from: usize, to: usize) -> usize
    requires { (from ≤ to) × (to ≤ length text.now) }
    ensures { result ≡ from + length (through_colon (part text.now from to)) }
{
    for i in (from..to).rev() {
        if text[i] == b':' {
            return i + 1;
        }
    }
    from
}

// A keyword.  [01 rule 9]
pub fn try_keyword(text: &[u8], line: LineSpan, scope: Scope) -> Option<Element>
    requires { InScope text.now line scope }
    ensures { result ≡ rule_on keyword text.now line scope }
{
    if !begins_with(text, line.from, line.to, b"#+") {
        return None;
    }
    let run = word_end(text, line.from, line.to);
    let marker = after_last_colon(text, line.from, run);
    if marker - line.from < 4 {
        return None;
    }
    let value = run_end(text, marker, line.to, Class::Blank);
    Some(Element::of_line(kind::KEYWORD, line, value))
}
