ghost use Rattle.std.specs.Prelude.{◌≡◌, ◌++◌, ◌≤◌, ◌<◌, eqb, get_or, length};
ghost use Rattle.text.specs.Bytes as spec;
ghost use Rattle.text.specs.Runs.{word};
ghost use Rattle.text.specs.Parts.{line_in};
ghost use Rattle.rules.specs.Findings.{KeyBytes};
ghost use Rattle.rules.specs.Closers.{starts_with, searched};

use text::bytes::{Class, lower, run_end, trim_end};
use text::line::line_end;

// A closing line: its start, its end, and how many lines stand before it.
#[derive(Clone, Copy)]
pub struct Closer {
    pub start: usize,
    pub end: usize,
    pub before: usize,
}

// What a search for a closer finds, and how many lines it compared further.  [02 order 3]
#[derive(Clone, Copy)]
pub struct Search {
    pub closer: Option<Closer>,
    pub compared: usize,
}

// Byte j of a closer that is made of two parts.
fn closer_byte(first: &[u8], second: &[u8], j: usize) -> u8
    requires { j < length (first.now ++ second.now) }
    ensures { result ≡ get_or (first.now ++ second.now) j 0 }
{
    if j < first.len() {
        first[j]
    } else {
        second[j - first.len()]
    }
}

// Whether two bytes are the same, case ignored. Most are the very same byte, so that is asked first.
#[tactic(auto, using(std::proofs::lemmas::Bool::Decides::nat_tests))]
fn is_same(a: u8, b: u8) -> bool
    ensures { result ≡ eqb (spec.lower a) (spec.lower b) }
{
    a == b || lower(a) == lower(b)
}

// Whether the first non-blank byte of the line at a byte is a mark.
fn starts_with(text: &[u8], at: usize, to: usize, mark: u8) -> bool
    requires { (at ≤ to) × (to ≤ length text.now) }
    ensures { result ≡ starts_with mark (line_in text.now at to) }
{
    let first = run_end(text, at, to, Class::Blank);
    first < to && lower(text[first]) == mark
}

// The first line up to an end whose body is `first` and then `second`, case ignored. Only a line whose first non-blank byte is the closer's is
// compared further, and counted.  [01 rules 3 and 4, 02 order 3]
// The loop over lines is left by its label, with the closer, out of an inner comparison byte by byte: the form that document 01 names.
pub fn find_closer(text: &[u8], from: usize, to: usize, first: &[u8], second: &[u8]) -> Search
    requires { (from ≤ to) × (to ≤ length text.now) × KeyBytes (first.now ++ second.now) }
    ensures { result ≡ searched (first.now ++ second.now) text.now from to }
{
    let size = first.len() + second.len();
    let mark = lower(closer_byte(first, second, 0));
    let mut at = from;
    let mut n = 0;
    let mut compared = 0;
    'lines: loop {
        if to <= at {
            break 'lines Search {
                closer: None,
                compared,
            };
        }
        if !starts_with(text, at, to, mark) {
            at = line_end(text, at, to);
            n += 1;
            continue;
        }
        compared += 1;
        let body = run_end(text, at, to, Class::Indent);
        let mut j = 0;
        loop {
            if size <= j {
                let end = line_end(text, body + j, to);
                if trim_end(text, body + j, end) == body + j {
                    break 'lines Search {
                        closer: Some(Closer {
                            start: at,
                            end,
                            before: n,
                        }),
                        compared,
                    };
                }
                break;
            }
            if to - body <= j {
                break;
            }
            if !is_same(text[body + j], closer_byte(first, second, j)) {
                break;
            }
            j += 1;
        }
        at = line_end(text, body + j, to);
        n += 1;
    }
}

// The first `:END:` line from a line's start on, up to an end.
pub fn find_end(text: &[u8], from: usize, to: usize) -> Search
    requires { (from ≤ to) × (to ≤ length text.now) }
    ensures { result ≡ searched (word ":end:") text.now from to }
{
    find_closer(text, from, to, b":end:", b"")
}
