use crate::place::Place;

// What a rule may look at besides its lines: its container's end, the place of its first line, and what is known of the lines from there to the
// end, so that a search that must be in vain is not made: `ends` is false only where no `:END:` line stands among them, and the name of every
// `#+end_NAME` line is one of `names`.
#[derive(Clone, Copy)]
pub struct Scope {
    pub end: usize,
    pub place: Place,
    pub ends: bool,
    pub names: u64,
}
