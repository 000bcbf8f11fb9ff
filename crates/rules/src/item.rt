ghost use Rattle.std.specs.Prelude.{◌≡◌, Bool, false, Some, ℕ, ◌+◌, ◌-◌, ◌≤◌, ◌<◌, length};
ghost use Rattle.text.specs.Bytes.{is_letter};
ghost use Rattle.text.specs.Limits.{text_limit};
ghost use Rattle.text.specs.Lines.{indent};
ghost use Rattle.text.specs.Parts.{part, line_in};
ghost use Rattle.rules.specs.Items.{is_item, width_of, is_sign, is_mark, is_box_byte, after_byte, after_counter, ended, after_number, after_set, after_box};
ghost use Rattle.rules.specs.Bullets.{bullet_of, marks_end, after_last, Tests, Leaves};

use text::bytes::{Class, is_digit, is_nonblank, run_end};

// A bullet: whether it is a number or letter, and no sign, and the byte right after it.  [02 order 4]
#[derive(Clone, Copy)]
pub struct Bullet {
    pub numbered: bool,
    pub end: usize,
}

// The width of the indentation from a byte up to a body: 8 for a tab, 1 for a space.
pub fn indent_width(text: &[u8], at: usize, body: usize) -> usize
    requires { (at ≤ body) × (body ≤ length text.now) × (body - at ≤ text_limit) }
    ensures { result ≡ width_of (part text.now at body) }
{
    let mut width = 0;
    for &b in &text[at..body] {
        width += if b == 9 { 8 } else { 1 };
    }
    width
}

#[tactic(auto, using(std::proofs::lemmas::Bool::Decides::nat_tests), unfolding(text::specs::Bytes::is_letter))]
fn is_letter(b: u8) -> bool
    ensures { result ≡ is_letter b }
{
    b.is_ascii_alphabetic()
}

fn is_sign(b: u8, indented: bool) -> bool
    ensures { result ≡ is_sign indented b }
{
    match b {
        b'-' | b'+' => true,
        b'*' => indented,
        _ => false,
    }
}

fn is_stop(b: u8) -> bool
    ensures { result ≡ is_mark b }
{
    matches!(b, b'.' | b')')
}

fn is_check(b: u8) -> bool
    ensures { result ≡ is_box_byte b }
{
    matches!(b, 9 | 13 | 32 | b'-' | b'X' | b'x')
}

// Past a byte that passes a test.
fn after_byte<F: Fn(u8) -> bool>(text: &[u8], at: usize, to: usize, test: F) -> Option<usize>
    requires bounds { (at ≤ to) × (to ≤ length text.now) }
    requires test { F.IsAlwaysCallable test }
    ensures within { (a : ℕ) → result ≡ Some a → a ≤ to }
    ensures leaves { (t : ℕ → Bool) → Tests (F.post test) t → Leaves text.now at to (after_byte t) result }
{
    if at < to && test(text[at]) {
        Some(at + 1)
    } else {
        None
    }
}

// A byte itself, where a blank byte, byte 10 or the end stands there.
fn if_ended(text: &[u8], at: usize, to: usize) -> Option<usize>
    requires { (at ≤ to) × (to ≤ length text.now) }
    ensures { Leaves text.now at to ended result }
{
    if at < to && is_nonblank(text[at]) {
        None
    } else {
        Some(at)
    }
}

// Past a number or one letter.
fn after_counter(text: &[u8], at: usize, to: usize) -> Option<usize>
    requires { (at ≤ to) × (to ≤ length text.now) }
    ensures { Leaves text.now at to after_counter result }
{
    if to <= at {
        return None;
    }
    let b = text[at];
    if is_letter(b) {
        return Some(at + 1);
    }
    if is_digit(b) {
        return Some(run_end(text, at + 1, to, Class::Digit));
    }
    None
}

// Past a byte that passes a test, with a blank byte, byte 10 or the end after it.
fn after_last<F: Fn(u8) -> bool>(text: &[u8], at: usize, to: usize, test: F) -> Option<usize>
    requires bounds { (at ≤ to) × (to ≤ length text.now) }
    requires test { F.IsAlwaysCallable test }
    ensures { (t : ℕ → Bool) → Tests (F.post test) t → Leaves text.now at to (after_last t) result }
{
    let a = after_byte(text, at, to, test)?;
    if_ended(text, a, to)
}

// Past a number or one letter with `.` or `)`.
fn after_number(text: &[u8], at: usize, to: usize) -> Option<usize>
    requires { (at ≤ to) × (to ≤ length text.now) }
    ensures { Leaves text.now at to after_number result }
{
    let a = after_counter(text, at, to)?;
    after_last(text, a, to, is_stop)
}

// The bullet of the line at a byte, whose body starts at `body`.
pub fn find_bullet(text: &[u8], at: usize, body: usize, to: usize) -> Option<Bullet>
    requires { (at ≤ to) × (to ≤ length text.now) × (body ≡ at + indent (line_in text.now at to)) }
    ensures { result ≡ bullet_of at (line_in text.now at to) }
{
    let indented = at < body;
    if let Some(end) = after_last(text, body, to, |b| is_sign(b, indented)) {
        return Some(Bullet {
            numbered: false,
            end,
        });
    }
    let end = after_number(text, body, to)?;
    Some(Bullet {
        numbered: true,
        end,
    })
}

// Whether a line may be an item line, by the first two bytes of its body: most lines of text are told so. Signs lie in `*` to `-`; after the
// first digit or the letter of a bullet stands a digit, `.` or `)`, and those lie in `)` to `9`.
fn may_be_item(text: &[u8], body: usize, to: usize) -> bool
    requires { (body < to) × (to ≤ length text.now) }
    ensures { (p : ℕ) → body ≡ p + indent (line_in text.now p to) → result ≡ false → is_item (line_in text.now p to) ≡ false }
{
    let first = text[body];
    if b'*' <= first && first <= b'-' {
        return true;
    }
    if to <= body + 1 {
        return false;
    }
    let second = text[body + 1];
    b')' <= second && second <= b'9'
}

// Whether the line at a byte, its body at another, is an item line.
pub fn is_item(text: &[u8], at: usize, body: usize, to: usize) -> bool
    requires { (at ≤ to) × (to ≤ length text.now) × (body ≡ at + indent (line_in text.now at to)) }
    ensures { result ≡ is_item (line_in text.now at to) }
{
    if to <= body {
        return false;
    }
    if !may_be_item(text, body, to) {
        return false;
    }
    find_bullet(text, at, body, to).is_some()
}

// Past a counter set: `[@`, a number or one letter, `]`.
fn after_set(text: &[u8], at: usize, to: usize) -> Option<usize>
    requires { (at ≤ to) × (to ≤ length text.now) }
    ensures { Leaves text.now at to after_set result }
{
    let a = after_byte(text, at, to, |b| b == b'[')?;
    let b = after_byte(text, a, to, |b| b == b'@')?;
    let c = after_counter(text, b, to)?;
    after_last(text, c, to, |b| b == b']')
}

// Past a check box: `[`, a blank byte, `X` or `-`, `]`.
fn after_box(text: &[u8], at: usize, to: usize) -> Option<usize>
    requires { (at ≤ to) × (to ≤ length text.now) }
    ensures { Leaves text.now at to after_box result }
{
    let a = after_byte(text, at, to, |b| b == b'[')?;
    let b = after_byte(text, a, to, is_check)?;
    after_last(text, b, to, |b| b == b']')
}

// Where what is left on an item's line starts: past the blank bytes after the bullet, and a counter set and a check box, as present, with the
// blank bytes after them.
pub fn item_start(text: &[u8], after: usize, end: usize) -> usize
    requires { (after ≤ end) × (end ≤ length text.now) }
    ensures { result ≡ marks_end after (line_in text.now after end) }
{
    let a = run_end(text, after, end, Class::Blank);
    let set_end = after_set(text, a, end).unwrap_or(a);
    let b = run_end(text, set_end, end, Class::Blank);
    let box_end = after_box(text, b, end).unwrap_or(b);
    run_end(text, box_end, end, Class::Blank)
}
