// Limits, as specs/Limits has them.
pub const TEXT: usize = 65536;

pub const DEPTH: usize = 32;

pub const KEY: usize = 64;
