ghost use Rattle.std.specs.Prelude.{◌≡◌};
ghost use Rattle.stream.specs.Promises.{Settled, EndSettled};

use crate::heading::heading_of;
use crate::list::{SIZE, count_finished, put_finished, put_heading};
use crate::state::{Stream, is_open, with_end};
use text::{limit, number};

// The state after a call, the number of its answer, and a count of headings: those written, or with 3 those there is no room for. The C interface
// hands it out as it is, hence a number and no `Result`.
#[repr(C)]
#[derive(Clone, Copy)]
pub struct Streamed {
    pub state: Stream,
    pub number: u32,
    pub count: usize,
}

fn answered(state: Stream, number: u32, count: usize) -> Streamed
    ensures { result ≡ record { state = state; number = number; count = count } }
{
    Streamed {
        state,
        number,
        count,
    }
}

// Takes a piece, and writes the headings whose lines it finishes. Tries in turn: the end has been declared; the book would be too long; the list has
// no room.
pub fn piece(state: Stream, bytes: &[u8], list: &mut [u32]) -> Streamed
    ensures { Settled state bytes.now list.old result list.new }
{
    if !is_open(state) {
        return answered(state, number::NOT_OPEN, 0);
    }
    if limit::TEXT - (state.total as usize) < bytes.len() {
        return answered(state, number::TOO_LONG, 0);
    }
    let count = count_finished(state, bytes);
    if list.len() / SIZE < count {
        return answered(state, number::NO_ROOM, count);
    }
    answered(put_finished(state, bytes, list), number::DONE, count)
}

// Declares the end, and writes the heading whose line it finishes, if the last line is one. Tries in turn: the end has been declared; the list has no
// room.
pub fn end(state: Stream, list: &mut [u32]) -> Streamed
    ensures { EndSettled state list.old result list.new }
{
    if !is_open(state) {
        return answered(state, number::NOT_OPEN, 0);
    }
    let finished = heading_of(state);
    let count = usize::from(finished.is_some());
    if list.len() / SIZE < count {
        return answered(state, number::NO_ROOM, count);
    }
    if let Some(heading) = finished {
        put_heading(list, 0, heading);
    }
    answered(with_end(state), number::DONE, count)
}
