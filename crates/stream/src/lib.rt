// The headings of a book that comes in pieces, each as soon as its line is finished.  [02 order 9]
#![tactic(auto)]

pub mod advance;
pub mod call;
pub mod heading;
pub mod list;
pub mod state;
