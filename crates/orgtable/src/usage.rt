// The program's arguments: `--help`, and no other.
use crate::output::print;
use crate::trouble::Trouble;
use std::env::FillError;
use std::io::Write;
use std::rt::Env;
use text::word::is_word;

// What the program is asked for.
#[derive(Clone, Copy)]
pub enum Request {
    Table,
    Help,
    Other,
}

// The request of the first argument, or of none. A longer one than `--help` does not fit.
pub fn request_of(env: &impl Env) -> Request {
    let mut word = [0u8; 6];
    match env.arg(1, &mut word) {
        Err(FillError::NotPresent) => Request::Table,
        Err(FillError::TooLong) => Request::Other,
        Ok(size) => {
            if is_word(&word, 0, size, b"--help") {
                Request::Help
            } else {
                Request::Other
            }
        }
    }
}

// Prints how the program is used.
pub fn print_usage(to: &mut impl Write) -> Result<(), Trouble> {
    print(
        to,
        b"use: orgtable < BOOK
Prints the table of an Org text of at most 65,536 bytes, a line of eight numbers for each part:
  kind, start, end, inner start, inner end, the parent's place in this table, detail, line of the text
Kinds:
  1 document         2 heading          3 section          4 planning
  5 property drawer  6 node property    7 drawer           8 greater block
  9 verbatim block  10 table           11 row             12 comment
 13 fixed-width     14 horizontal rule 15 keyword         16 paragraph
Starts and ends are bytes of the text; an end is one past the last. Places and lines are counted from 0.
Or one line: refused 1 (text too long), refused 2 (nested over 32 deep), refused 3 N (N records, over 2,048).
Where reading or writing fails, a line on standard error says so.
",
    )
}
