// Intake: orders taken into a book, each request once.  [02 order 6]
#![tactic(auto)]

pub mod book;
pub mod call;
pub mod log;
pub mod required;
pub mod seen;
