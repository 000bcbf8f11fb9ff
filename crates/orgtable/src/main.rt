// Reads standard input and prints its table, a line of eight numbers a record, or the refusal.
#![tactic(auto)]

mod input;
mod output;
mod page;
mod trouble;
mod usage;

ghost use Rattle.orgtable.specs.Output.{PrintsTable};

use input::read_input;
use output::print_input;
use std::io::{Read, Write};
use std::rt::Env;
use trouble::Trouble;
use usage::{Request, print_usage, request_of};

// Reads a text to its end and prints its table, or the refusal; where it cannot be read, nothing.
pub fn print_table<R: Read, W: Write>(from: &mut R, to: &mut W) -> Result<(), Trouble>
    ensures { PrintsTable result (R.remaining from.old) (W.contents to.old) (W.contents to.new) }
{
    let mut buffer = [0u8; 65536];
    let mut table = [0u32; 16384];
    let input = read_input(from, &mut buffer);
    if input.is_err() {
        return Err(Trouble::Unread);
    }
    print_input(to, input, &buffer, &mut table)
}

// Does what the argument asks for.
fn run(env: &impl Env, from: &mut impl Read, to: &mut impl Write) -> Result<(), Trouble> {
    match request_of(env) {
        Request::Table => print_table(from, to),
        Request::Help => print_usage(to),
        Request::Other => Err(Trouble::Argument),
    }
}

fn main(rt: HostRuntime) {
    let done = run(&rt, &mut rt.stdin(), &mut rt.stdout());
    if let Err(trouble) = done {
        // Where that fails there is nobody left to tell.
        let _ = rt.eprintln(trouble);
    }
}
