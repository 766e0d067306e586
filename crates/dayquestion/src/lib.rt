// A question filled from a day: queue code and references come from the day, the rest from the caller.
#![tactic(auto)]

mod filling; // filling.rt: the queue code and the references of a day

ghost use Rattle.std.specs.Prelude.{◌≡◌};
ghost use Rattle.dayquestion.specs.Filling.{question_from, fill_result, filled};

use daybook::Day;
use questions::{Codes, QUESTION_BYTES, Question, encoding};

// What the caller gives of a question; the rest comes from the day. A nominal price of 0 is missing.
#[derive(Clone, Copy, Debug, PartialEq, Eq)]
pub struct Order {
    pub side: u8,
    pub order_type: u8,
    pub price: u32,
    pub nominal: u32,
    pub security_code: u32,
}

// The question of an order, filled from a day. The day may be any.
pub fn question(day: Day, order: Order) -> Question
    ensures { result ≡ question_from day order }
{
    let codes = Codes {
        side: order.side,
        order_type: order.order_type,
        queue: filling::queue_code_of(day),
        byte_3: 0,
        security_code: order.security_code,
    };
    let references = filling::references_from(day, order.nominal);
    Question {
        codes,
        price: order.price,
        references,
    }
}

// Room of not as many bytes as a question has.
#[derive(Clone, Copy, Debug, PartialEq, Eq)]
pub struct WrongLength;

// The question of an order as bytes. Room of another length is refused, and keeps every byte.
pub fn fill(day: Day, order: Order, room: &mut [u8]) -> Result<(), WrongLength>
    ensures result { result ≡ fill_result room.old }
    ensures bytes { room.new ≡ filled day order room.old }
{
    if room.len() != QUESTION_BYTES {
        return Err(WrongLength);
    }
    room.copy_from_slice(&encoding::encode(question(day, order)));
    Ok(())
}
