ghost use Rattle.std.specs.Prelude.{◌≡◌};
ghost use Rattle.rules.specs.Findings.{LineOf};
ghost use Rattle.rules.specs.Closers.{no_search, opener_search, search_from};

use crate::block::opened_name;
use crate::closer::{Search, find_closer, find_end};
use crate::drawer::is_drawer_line;
use text::line::{LineSpan, line_at, starts_line};

// The search from the line that starts at a byte, in a container that ends at a byte. Nothing is found and nothing compared where no opener of a
// block or drawer starts there, or where the container ends outside the text.  [02 order 3]
pub fn search_from(text: &[u8], at: usize, to: usize) -> Search
    ensures { result ≡ search_from text.now at to }
{
    if text.len() < to || to <= at || !starts_line(text, at) {
        return no_search();
    }
    let line = line_at(text, at, to);
    search_from_line(text, line, to)
}

// The search from a line: for `#+end_NAME` where it is `#+begin_NAME`, for `:END:` where it is `:NAME:`.
fn search_from_line(text: &[u8], line: LineSpan, to: usize) -> Search
    requires { LineOf text.now line to }
    ensures { result ≡ opener_search text.now line.start to }
{
    if is_drawer_line(text, line, to) {
        return find_end(text, line.end, to);
    }
    let Some((name, end)) = opened_name(text, line, to) else {
        return no_search();
    };
    find_closer(text, line.end, to, b"#+end_", &text[name..end])
}

// Nothing found, nothing compared.
fn no_search() -> Search
    ensures { result ≡ no_search }
{
    Search {
        closer: None,
        compared: 0,
    }
}
