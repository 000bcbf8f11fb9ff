ghost use Rattle.std.specs.Prelude.{◌≡◌};
ghost use Rattle.stream.specs.State.{new_stream, with_end};
ghost use Rattle.stream.specs.Steps as spec;
ghost use Rattle.stream.specs.Call as call;

use text::limit;

// What is known of a book after some of its bytes: how many they are; of the line that is not finished its bytes, its stars while it is or may be a
// heading line, and the length of its title; and whether the end has been declared: 0 if not, a number because the C interface hands
// this struct out as it is.
#[repr(C)]
#[derive(Clone, Copy)]
pub struct Stream {
    pub total: u32,
    pub line: u32,
    pub stars: u32,
    pub title: u32,
    pub ended: u32,
}

// Before the first byte.
pub fn new_stream() -> Stream
    ensures { result ≡ new_stream }
{
    Stream {
        total: 0,
        line: 0,
        stars: 0,
        title: 0,
        ended: 0,
    }
}

// Whether the unfinished line is a heading line: stars, and more than stars.
pub fn in_heading(state: Stream) -> bool
    ensures { result ≡ spec.in_heading state }
{
    0 < state.stars && state.stars < state.line
}

// Whether a state is one that a text within the limit leaves, its end not declared.
pub fn is_open(state: Stream) -> bool
    ensures { result ≡ call.is_open state }
{
    if state.ended != 0 {
        return false;
    }
    if limit::TEXT < (state.total as usize) {
        return false;
    }
    if state.total < state.line {
        return false;
    }
    if in_heading(state) {
        return state.title < state.line - state.stars;
    }
    if state.title != 0 {
        return false;
    }
    state.stars == 0 || state.stars == state.line
}

// The same state, its end declared.
pub fn with_end(state: Stream) -> Stream
    ensures { result ≡ with_end state }
{
    Stream { ended: 1, ..state }
}
