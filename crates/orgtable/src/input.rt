// An input, read into a buffer to its end. A read that failed is not its end.
ghost use Rattle.std.specs.Prelude.{◌≡◌, ◌≤◌, length, IfOk, IfSome};
ghost use Rattle.orgtable.specs.Input.{step_of, input_of, InputHolds};

use std::io;
use std::io::Read;

// What the answer of a read means: how many bytes it moved, or none at the input's end. An error is a failed read.
fn step_of(got: io::Result<usize>) -> io::Result<Option<usize>>
    ensures { result ≡ step_of got }
{
    match got {
        Ok(count) => {
            if count == 0 {
                return Ok(None);
            }
            Ok(Some(count))
        }
        Err(failed) => Err(failed),
    }
}

// What the input came to, by the last read, when so many bytes are in use and no more go into the buffer.
fn input_of(step: io::Result<Option<usize>>, used: usize) -> io::Result<Option<usize>>
    ensures { result ≡ input_of step used }
{
    match step {
        Ok(more) => match more {
            Some(_) => Ok(None),
            None => Ok(Some(used)),
        },
        Err(unread) => Err(unread),
    }
}

// Reads until the input ends, the buffer is full or a read fails; a full one, if the input then ends. Gives how many bytes are in use, or none where
// there are more than the buffer holds. Of a reader whose bytes are known, the bytes in use are all of them. The program catches no signal, so none
// interrupts a read: any error is a failed one.
pub fn read_input<R: Read>(reader: &mut R, buffer: &mut [u8]) -> io::Result<Option<usize>>
    ensures within { IfOk result (λ used. IfSome used (λ k. k ≤ length buffer.old)) }
    ensures bytes { InputHolds result (R.remaining reader.old) buffer.new }
{
    let mut used = 0;
    while used < buffer.len() {
        let step = step_of(reader.read(&mut buffer[used..]));
        let Ok(more) = step else {
            return input_of(step, used);
        };
        let Some(count) = more else {
            return input_of(step, used);
        };
        used += count;
    }
    let mut further = [0u8; 1];
    let past = step_of(reader.read(&mut further));
    input_of(past, used)
}
