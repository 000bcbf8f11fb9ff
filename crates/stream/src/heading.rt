ghost use Rattle.std.specs.Prelude.{◌≡◌, ◌≤◌, option_to_list};
ghost use Rattle.stream.specs.Steps as spec;

use crate::state::{Stream, in_heading};

// A heading line's start, its stars, and the length of its title.
#[derive(Clone, Copy)]
pub struct Heading {
    pub start: u32,
    pub stars: u32,
    pub title: u32,
}

// The heading of the unfinished line, if it is one, where it is finished as it stands.
pub fn heading_of(state: Stream) -> Option<Heading>
    requires { state.line ≤ state.total }
    ensures { option_to_list result ≡ spec.last_heading state }
{
    in_heading(state).then_some(Heading {
        start: state.total - state.line,
        stars: state.stars,
        title: state.title,
    })
}
