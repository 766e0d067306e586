// The text of pricecheck: a line for each question, and one for the bytes that are left over; or the line of why there is nothing to judge by.
// Pages are written for every well-formed table of prices below 2^31 and any percentage.
#![tactic(auto)]

pub mod lines; // lines.rt: the lines, from the last to the first

// How many characters a line may have, and the line of the bytes that are left over.
pub const LINE_ROOM: usize = 65;

pub const LEFT_ROOM: usize = 8;
