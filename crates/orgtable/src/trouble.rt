// What keeps the program from its work, and the line that says so on standard error.
use std::fmt;
use std::fmt::{Display, Formatter};

#[derive(Clone, Copy)]
pub enum Trouble {
    Argument,
    Unread,
    Unwritten,
}

impl Display for Trouble {
    fn fmt<W: fmt::Write>(&self, f: &mut Formatter<W>) -> fmt::Result {
        f.write_str(match *self {
            Trouble::Argument => "orgtable: takes no file name; use: orgtable < BOOK",
            Trouble::Unread => {
                "orgtable: standard input could not be read, so no table is printed"
            }
            Trouble::Unwritten => "orgtable: standard output could not be written whole",
        })
    }
}
