// The names of a question's codes.
//
// Codes are numbers of a question's bytes, and no enums, since a question may hold any number there: a bad one gets number 2.

// The sides.
pub const BUY: u8 = 1;

pub const SELL: u8 = 2;

// The order types.
pub const LIMIT: u8 = 1;

pub const ENHANCED: u8 = 2;

pub const SPECIAL: u8 = 3;

// The queue codes: no bid and no ask yet today, both queues, one of them, neither.
pub const OPENING: u8 = 1;

pub const BOTH: u8 = 2;

pub const BUY_ONLY: u8 = 3;

pub const SELL_ONLY: u8 = 4;

pub const NEITHER: u8 = 5;
