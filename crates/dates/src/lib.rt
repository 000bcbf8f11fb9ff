// Timestamps, planning lines and the days between two dates. Every function is proved equal to its definition in specs/.
#![tactic(auto)]

pub mod days;
pub mod parts;
pub mod planning;
pub mod read;
pub mod repeats;
pub mod span;
pub mod stamp;
