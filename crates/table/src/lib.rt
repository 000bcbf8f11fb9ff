// What a reading is: records, the table of a text, when a table is a proper reading, and that exactly one is.
#![tactic(auto)]

pub mod record;
