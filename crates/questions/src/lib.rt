// Questions: a question from its bytes and its bytes again, and the checks of its security code, and of its references against the ladder.
//
// Prices are whole mils. What the codes choose, and the checks that depend on it, are the crate `rules` above.
#![tactic(auto)]

pub mod decoding; // decoding.rt: a question from its bytes
pub mod encoding; // encoding.rt: the bytes of a question
mod missing; // missing.rt: references, each a price or missing
pub mod checks; // checks.rt: security codes, references off the ladder or outside its ends, and pairs of a low and a high
pub mod code_names; // code_names.rt: the names of a question's codes

// How many bytes a question has.
pub const QUESTION_BYTES: usize = 44;

// A reference: a price, or missing.
#[derive(Clone, Copy, Debug, Default, PartialEq, Eq)]
pub enum Reference {
    #[default]
    Missing,
    Price(u32),
}

// The eight references of a question.
#[derive(Clone, Copy, Debug, Default, PartialEq, Eq)]
pub struct References {
    pub current_bid: Reference,
    pub current_ask: Reference,
    pub last_bid: Reference,
    pub last_ask: Reference,
    pub previous_close: Reference,
    pub day_low: Reference,
    pub day_high: Reference,
    pub nominal: Reference,
}

// The code numbers of a question, as they stand in its bytes: the first four, and the security code at the end.
#[derive(Clone, Copy, Debug, PartialEq, Eq)]
pub struct Codes {
    pub side: u8,
    pub order_type: u8,
    pub queue: u8,
    // To be zero.
    pub byte_3: u8,
    // Whose question it is.
    pub security_code: u32,
}

// A question. The order price is a number like any other: it may be 0, or off the ladder.
#[derive(Clone, Copy, Debug, PartialEq, Eq)]
pub struct Question {
    pub codes: Codes,
    pub price: u32,
    pub references: References,
}
