ghost use Rattle.std.specs.Prelude.{◌≡◌, ℕ, ◌+◌, ◌≤◌, ◌<◌, length};
ghost use Rattle.text.specs.Parts.{line_in, next_line};
ghost use Rattle.rules.specs.Headings.{heading_stars, is_heading_up_to, StarLine, NextStarLine};

use text::bytes::{Class, has_byte, run_end};

// The stars of the heading line at a byte; 0 where the line there is none. No `Option`: a reader knows that there is
// one, and passes the number on.
pub fn heading_stars(text: &[u8], at: usize, to: usize) -> usize
    requires { (at ≤ to) × (to ≤ length text.now) }
    ensures { result ≡ heading_stars (line_in text.now at to) }
{
    let end = run_end(text, at, to, Class::Star);
    if end < to && text[end] == 32 {
        end - at
    } else {
        0
    }
}

// The place among the 64 bytes from a byte on of the first star right after byte 10; 64 or more where there is none. As in `first_in`, a byte that
// is none counts as 255 less its place, so the loop has no way out early.
fn star_line_in(text: &[u8], at: usize) -> usize
    requires { (1 ≤ at) × (at + 64 ≤ length text.now) }
    ensures { (result < 64 → StarLine text.now (at + result)) × ((k : ℕ) → k < 64 → k < result → StarLine text.now (at + k) → ⊥) }
{
    let mut first: u8 = 255;
    for j in 0..64u8 {
        let here = if (text[at + (j as usize)] == b'*') & (text[at + (j as usize) - 1] == 10) {
            j
        } else {
            255 - j
        };
        first = first.min(here);
    }
    first as usize
}

// The next star right after byte 10, from a byte on, or the text's end. No `step_by`: the last bytes are looked at from where the blocks end.
pub fn next_star_line(text: &[u8], from: usize) -> usize
    requires { (1 ≤ from) × (from ≤ length text.now) }
    ensures { NextStarLine text.now from result }
{
    let end = text.len();
    let mut i = from;
    while 64 <= end - i {
        if has_byte(text, i, b'*') {
            let k = star_line_in(text, i);
            if k < 64 {
                return i + k;
            }
        }
        i += 64;
    }
    star_line_by_bytes(text, i)
}

// The same, byte by byte: for a text's last bytes, which fill no block.
fn star_line_by_bytes(text: &[u8], from: usize) -> usize
    requires { (1 ≤ from) × (from ≤ length text.now) }
    ensures { NextStarLine text.now from result }
{
    for i in from..text.len() {
        if text[i] == b'*' && text[i - 1] == 10 {
            return i;
        }
    }
    text.len()
}

// The next heading line from a line's start on with at most so many stars, or the text's end. Past the first line, only lines that start with a star
// are looked at.
pub fn next_heading(text: &[u8], from: usize, most: usize) -> usize
    requires { from ≤ length text.now }
    ensures { result ≡ next_line (is_heading_up_to most) text.now from }
{
    let end = text.len();
    let mut at = from;
    while at < end {
        let stars = heading_stars(text, at, end);
        if 0 < stars && stars <= most {
            return at;
        }
        at = next_star_line(text, at + 1);
    }
    at
}
