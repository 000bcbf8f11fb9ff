// The search for a request in a book.  [02 order 6]
ghost use Rattle.std.specs.Prelude.{◌≡◌, ◌≤◌, length};
ghost use Rattle.text.specs.Limits.{text_limit};
ghost use Rattle.intake.specs.Required.{request_key};
ghost use Rattle.intake.specs.Seen.{looks_up, seen};

use lookup::lookup::lookup;
use lookup::span::Span;
use rules::heading::next_heading;
use text::line::line_end;
use text::word::is_equal;

// Whether `REQUEST`, looked up at a byte, gives a value byte for byte.
fn looks_up(text: &[u8], at: usize, value: &[u8]) -> bool
    ensures { result ≡ looks_up text.now request_key value.now at }
{
    let Ok(Span { start, end }) = lookup(text, at, b"REQUEST") else {
        return false;
    };
    is_equal(&text[start..end], value)
}

// Whether some heading has the request. Only heading lines are asked, and a lookup goes no further than the next: every line is looked at a bounded
// number of times.
pub fn is_seen(text: &[u8], value: &[u8]) -> bool
    requires { length text.now ≤ text_limit }
    ensures { result ≡ seen text.now value.now }
{
    let end = text.len();
    let mut at = next_heading(text, 0, end);
    while at < end {
        if looks_up(text, at, value) {
            return true;
        }
        at = next_heading(text, line_end(text, at, end), end);
    }
    false
}
