ghost use Rattle.std.specs.Prelude.{◌≡◌, false, List, ℕ, ◌≤◌, ◌<◌, length};
ghost use Rattle.text.specs.Parts.{part};
ghost use Rattle.rules.specs.Known.{name_number, has_name, Names};

use text::bytes::lower;
use text::line::line_at;
use text::word::begins_with;

// Every name may close: nothing is known.
pub const ANY_NAME: u64 = u64::MAX;

// A number below 63 for a name: the same for names that differ in case only.
fn name_number(text: &[u8], from: usize, to: usize) -> u64
    requires { (from ≤ to) × (to ≤ length text.now) }
    ensures { (result ≡ name_number (part text.now from to)) × (result < 63) }
{
    let mut n: u64 = 0;
    for &b in &text[from..to] {
        n = (n * 5 + lower(b) as u64) % 63;
    }
    n
}

// Whether a name may be one of some names.
pub fn has_name(names: u64, text: &[u8], from: usize, to: usize) -> bool
    requires { (from ≤ to) × (to ≤ length text.now) }
    ensures { result ≡ has_name names (part text.now from to) }
{
    (names >> name_number(text, from, to)) % 2 == 1
}

// Some names and one more, told by its number.
fn with_name(names: u64, number: u64) -> u64
    requires { number < 64 }
    ensures { (x : List ℕ) → has_name result x ≡ false → (has_name names x ≡ false) × (name_number x ≡ number → ⊥) }
{
    names | (1u64 << number)
}

// The names of the `#+end_NAME` lines from a byte up to an end.
pub fn closing_names(text: &[u8], from: usize, to: usize) -> u64
    requires { (from ≤ to) × (to ≤ length text.now) }
    ensures { Names text.now from to result }
{
    let mut at = from;
    let mut names: u64 = 0;
    while at < to {
        let line = line_at(text, at, to);
        if begins_with(text, line.from, line.to, b"#+end_") {
            names = with_name(names, name_number(text, line.from + 6, line.to));
        }
        at = line.end;
    }
    names
}
