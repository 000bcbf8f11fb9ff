// Sheets: an order's buffer, judged and written out as Org text.  [02 order 5]
#![tactic(auto)]

pub mod buffer;
pub mod faults;
pub mod judge;
pub mod layout;
pub mod output;
pub mod pairs;
pub mod search;
pub mod sheet;
pub mod size;
pub mod write;
