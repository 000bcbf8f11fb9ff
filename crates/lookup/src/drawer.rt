ghost use Rattle.std.specs.Prelude.{◌≡◌, ◌≤◌, length};
ghost use Rattle.text.specs.Parts.{lines_in, line_in, first_line};
ghost use Rattle.rules.specs.LineTests.{is_properties_line};
ghost use Rattle.dates.specs.Reads.{pick};
ghost use Rattle.lookup.specs.Drawers.{has_end, before_end, first_other, drawer_in, drawer_after};
ghost use Rattle.lookup.specs.declared.drawer.NoDrawer.TheVariants.{NotClosed, NotProperty};

use crate::span::Span;
use rules::closer::find_end;
use rules::heading::next_heading;
use rules::planning::is_planning;
use rules::property::{find_properties_end, property_at};
use text::line::{first_line, line_at};
use text::word::is_word;

// Why there is no property drawer, for `NotProperty` with the start of the first line that is no node property.  [02 order 2]
#[derive(Clone, Copy)]
pub enum NoDrawer {
    BlankFirst,
    NotClosed,
    NotProperty(usize),
    Missing,
}

// Whether the next non-blank line from a byte up to an end is `:PROPERTIES:`.
fn opens_after_blanks(text: &[u8], at: usize, to: usize) -> bool
    requires { (at ≤ to) × (to ≤ length text.now) }
    ensures { result ≡ is_properties_line (line_in text.now (first_line text.now at to) to) }
{
    let first = first_line(text, at, to);
    if to <= first.at {
        return false;
    }
    let line = line_at(text, first.at, to);
    is_word(text, line.from, line.to, b":properties:")
}

// Where the first line that is no node property starts, or the end.
fn first_other(text: &[u8], from: usize, to: usize) -> usize
    requires { (from ≤ to) × (to ≤ length text.now) }
    ensures { result ≡ first_other from (lines_in text.now from to) }
{
    let mut at = from;
    while at < to {
        let line = line_at(text, at, to);
        if property_at(text, line, to).is_none() {
            return at;
        }
        at = line.end;
    }
    at
}

// Why the lines after an opener are no property drawer's: no `:END:` line follows, or a line before the first one is no node property.
fn why_none(text: &[u8], from: usize, to: usize) -> NoDrawer
    requires { (from ≤ to) × (to ≤ length text.now) }
    ensures { let ls = lines_in text.now from to in result ≡ pick (has_end ls) (NotProperty (first_other from (before_end ls))) NotClosed }
{
    match find_end(text, from, to).closer {
        Some(closer) => NoDrawer::NotProperty(first_other(text, from, closer.start)),
        None => NoDrawer::NotClosed,
    }
}

// The lines of the property drawer that stands at a byte, its place, in a section that ends at a byte; or why there is none.
// [01 rule 2, 02 order 2]
fn find_drawer_at(text: &[u8], at: usize, to: usize) -> Result<Span, NoDrawer>
    requires { (at ≤ to) × (to ≤ length text.now) }
    ensures { result ≡ drawer_in at (lines_in text.now at to) }
{
    if to <= at {
        return Err(NoDrawer::Missing);
    }
    let opener = line_at(text, at, to);
    if !is_word(text, opener.from, opener.to, b":properties:") {
        if opens_after_blanks(text, at, to) {
            return Err(NoDrawer::BlankFirst);
        }
        return Err(NoDrawer::Missing);
    }
    let inner = opener.end;
    let Some(closer) = find_properties_end(text, inner, to) else {
        return Err(why_none(text, inner, to));
    };
    Ok(Span {
        start: inner,
        end: closer.start,
    })
}

// The lines of the property drawer of the heading whose line ends at a byte: right after that line or its planning line.  [01 rule 2]
pub fn find_drawer(text: &[u8], from: usize) -> Result<Span, NoDrawer>
    requires { from ≤ length text.now }
    ensures { result ≡ drawer_after text.now from }
{
    let to = next_heading(text, from, text.len());
    if to <= from {
        return Err(NoDrawer::Missing);
    }
    let line = line_at(text, from, to);
    if is_planning(text, line, to) {
        return find_drawer_at(text, line.end, to);
    }
    find_drawer_at(text, from, to)
}
