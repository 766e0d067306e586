// The reading of a question: the range that the rules permit, or why it has none.
//
// Functions that take terms hold for every well-formed table of prices below 2^31 and any percentage.
#![tactic(auto)]

pub mod bounds; // bounds.rt: limits and nine spreads of a reference
mod permitted; // permitted.rt: the permitted range
pub mod readings; // readings.rt: the reading of a question

use questions::Reference;

// A permitted range: its lowest and highest price, and the reference of the nine-fold rule.
#[derive(Clone, Copy, Debug, PartialEq, Eq)]
pub struct Range {
    pub lowest: u32,
    pub highest: u32,
    pub nine_fold: Reference,
}

// Why there is no range, with its number, in the order of the checks.
#[derive(Clone, Copy, Debug, PartialEq, Eq)]
pub enum Refusal {
    // Side, order type or queue code unknown, or byte 3 not zero.
    UnknownCode = 2,
    // A security code that is not 1 to 99999.
    BadSecurityCode = 15,
    // A reference that is present but no ladder price; of a previous close or a nominal price, outside the ladder's ends.
    OffLadder = 3,
    // References that disagree with the queue code, or with each other.
    Disagreement = 4,
    // A special limit order with no opposite queue.
    NoOpposite = 5,
}

// The reading of a question: its range, or why it has none.
pub type Reading = Result<Range, Refusal>;
