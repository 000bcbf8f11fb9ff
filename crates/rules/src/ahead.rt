ghost use Rattle.std.specs.Prelude.{◌≡◌, false};
ghost use Rattle.text.specs.Runs.{word};
ghost use Rattle.rules.specs.Known.{NoLine, Names};
ghost use Rattle.rules.specs.Findings.{InScope};

use crate::block::opened_name;
use crate::closer::find_end;
use crate::drawer::is_drawer_line;
use crate::known::{ANY_NAME, closing_names, has_name};
use crate::lines::LineRun;
use crate::rule::Element;
use crate::scope::Scope;
use text::line::LineSpan;
use text::word::begins_with;

// All of the 63 names: they tell nothing, and are not collected again.
const ALL_NAMES: u64 = 9223372036854775807;

// A run of lines, and what is known of those after them.
#[derive(Clone, Copy)]
pub struct Further {
    pub run: LineRun,
    pub ends: bool,
    pub names: u64,
}

// An element, and what is known of the lines after its own.
#[derive(Clone, Copy)]
pub struct Parsed {
    pub element: Element,
    pub ends: bool,
    pub names: u64,
}

// Whether an `:END:` line may still follow a line that starts no element: asked only at a line that could have opened a drawer.
pub fn ends_after(text: &[u8], line: LineSpan, scope: Scope) -> bool
    requires { InScope text.now line scope }
    ensures { result ≡ false → NoLine (word ":end:") text.now line.end scope.end }
{
    if !scope.ends {
        return false;
    }
    if !is_drawer_line(text, line, scope.end) {
        return true;
    }
    let search = find_end(text, line.end, scope.end);
    search.closer.is_some()
}

// The names that may still close a block after a line that starts no element. They are collected where nothing is known and the line begins as an
// opener does, with a name or without, and anew where it opens a block whose closer was sought in vain.
pub fn names_after(text: &[u8], line: LineSpan, scope: Scope) -> u64
    requires { InScope text.now line scope }
    ensures { Names text.now line.end scope.end result }
{
    let names = scope.names;
    if names == ALL_NAMES {
        return names;
    }
    if names == ANY_NAME && begins_with(text, line.from, line.to, b"#+begin_") {
        return closing_names(text, line.end, scope.end);
    }
    let Some((name, to)) = opened_name(text, line, scope.end) else {
        return names;
    };
    if !has_name(names, text, name, to) {
        return names;
    }
    closing_names(text, line.end, scope.end)
}
