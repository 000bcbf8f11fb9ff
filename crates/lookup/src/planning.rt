ghost use Rattle.std.specs.Prelude.{◌≡◌, ◌≤◌, length};
ghost use Rattle.lookup.specs.Planning as spec;

use crate::span::Span;
use crate::stages::find_heading;
use dates::planning::{Planning, read_planning};
use rules::heading::next_heading;
use text::limit;
use text::line::line_at;

// Why there are no stamps.
#[derive(Clone, Copy)]
pub enum Refusal {
    TooLong,
    NoHeading,
}

// The body of the line right after a heading line, which ends at a byte; the empty one where the heading has no line.
fn line_after(text: &[u8], from: usize) -> Span
    requires { from ≤ length text.now }
    ensures { spec.BodyAfter text.now from result }
{
    let to = next_heading(text, from, text.len());
    if to <= from {
        return Span {
            start: from,
            end: from,
        };
    }
    let line = line_at(text, from, to);
    Span {
        start: line.from,
        end: line.to,
    }
}

// The stamps of the planning line of the heading line that starts at a byte. Tries in turn: the text is over 65,536 bytes; no heading line
// starts there.  [02 order 1]
pub fn planning(text: &[u8], at: usize) -> Result<Planning, Refusal>
    ensures { result ≡ spec.planning text.now at }
{
    if limit::TEXT < text.len() {
        return Err(Refusal::TooLong);
    }
    let inner = find_heading(text, at).ok_or(Refusal::NoHeading)?;
    let body = line_after(text, inner);
    Ok(read_planning(text, body.start, body.end))
}
