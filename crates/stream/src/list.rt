// The list of headings, three numbers each.
ghost use Rattle.std.specs.Prelude.{◌≡◌, ◌+◌, ◌≤◌, ◌-◌, length};
ghost use Rattle.std.specs.Iterator.{at_most};
ghost use Rattle.std.proofs.lemmas.List.Edits.{sets};
ghost use Rattle.stream.specs.Headings.{heading_size, numbers_of, numbers};
ghost use Rattle.stream.specs.Steps as spec;
ghost use Rattle.stream.specs.Spans.{Within, NextHeading};

use crate::advance::advance;
use crate::heading::Heading;
use crate::state::Stream;

// How many numbers a heading has, as specs/Headings has it.
pub const SIZE: usize = 3;

// A heading's numbers, written from an index on.
pub fn put_heading(list: &mut [u32], at: usize, heading: Heading)
    requires { at + heading_size ≤ length list.old }
    ensures { list.new ≡ sets list.old at (numbers_of heading) }
{
    list[at..at + SIZE].copy_from_slice(&[heading.start, heading.stars, heading.title]);
}

// The headings that a piece finishes, one after the other, from a state and a byte of the piece on.
#[derive(Drop)]
struct Finished<'a> {
    state: Stream,
    bytes: &'a [u8],
    at: usize,
    ghost within: { Within state bytes.now at × (at ≤ length bytes.now) },
}

impl<'a> Iterator for Finished<'a> {
    type Item = Heading;

    ghost next_gives = { λ s r t. (t.bytes ≡ s.bytes) × NextHeading s.state s.bytes.now s.at r t.state t.at };

    ghost remaining = { λ s. at_most (length s.bytes.now - s.at) };

    fn next(&mut self) -> Option<Heading> {
        while self.at < self.bytes.len() {
            let next = advance(self.state, self.bytes, self.at);
            self.state = next.state;
            self.at = next.at;
            if next.finished.is_some() {
                return next.finished;
            }
        }
        None
    }
}

// How many headings a piece finishes.
pub fn count_finished(state: Stream, bytes: &[u8]) -> usize
    requires { Within state bytes.now 0 }
    ensures { result ≡ length (spec.finished state bytes.now) }
{
    let finished = Finished {
        state,
        bytes,
        at: 0,
    };
    finished.count()
}

// Writes the headings that a piece finishes at the list's front, and gives the state after it.
pub fn put_finished(state: Stream, bytes: &[u8], list: &mut [u32]) -> Stream
    requires { Within state bytes.now 0 × (length (numbers (spec.finished state bytes.now)) ≤ length list.old) }
    ensures value { result ≡ spec.fed state bytes.now }
    ensures list_after { list.new ≡ sets list.old 0 (numbers (spec.finished state bytes.now)) }
{
    let mut finished = Finished {
        state,
        bytes,
        at: 0,
    };
    let mut to = 0;
    while let Some(heading) = finished.next() {
        put_heading(list, to, heading);
        to += SIZE;
    }
    finished.state
}
