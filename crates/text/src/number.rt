// The numbers of an answer, as specs/Number has them: the C interface gives them back, so they are no enum.
pub const DONE: u32 = 0;

pub const TOO_LONG: u32 = 1;

pub const TOO_DEEP: u32 = 2;

pub const NO_ROOM: u32 = 3;

pub const NO_HEADING: u32 = 4;

pub const NO_DRAWER: u32 = 5;

pub const NO_KEY: u32 = 6;

pub const BAD_KEY: u32 = 7;

pub const BLANK_FIRST: u32 = 8;

pub const NOT_PROPERTY: u32 = 9;

pub const NOT_CLOSED: u32 = 10;

pub const NO_DAY: u32 = 11;

pub const BAD_ORDER: u32 = 12;

pub const BAD_TEXT: u32 = 13;

pub const BAD_NAME: u32 = 14;

pub const REPEATED_KEY: u32 = 15;

pub const SHORT_OUTPUT: u32 = 16;

pub const MISSING_KEY: u32 = 17;

pub const BAD_USED: u32 = 18;

pub const SEEN: u32 = 19;

pub const NOT_OPEN: u32 = 21;

pub const CUT_LOG: u32 = 27;
