// The orders that the program `worked` tries, each by its fields, and the bytes of the question that an order stands for at a price.
#![tactic(auto)]

ghost use Rattle.std.specs.Prelude.{◌≡◌};
ghost use Rattle.questions.specs.Missing.{reference_of};
ghost use Rattle.questions.specs.Record.{bytes_of};
ghost use Rattle.orders.specs.Orders.{bare, asked};

use questions::{Codes, QUESTION_BYTES, Question, Reference, References, encoding};

// All of a question but its order price.
#[derive(Clone, Copy, Debug, PartialEq, Eq)]
pub struct Order {
    pub codes: Codes,
    pub references: References,
}

// Prices are mils; a price of 0 makes the reference missing.
impl Order {
    // With no reference, and security code 1.
    pub fn new(side: u8, order_type: u8, queue: u8) -> Order
        ensures { result ≡ bare side order_type queue }
    {
        Order {
            codes: Codes {
                side,
                order_type,
                queue,
                byte_3: 0,
                security_code: 1,
            },
            references: References::default(),
        }
    }

    // With this security code.
    pub fn security(self, code: u32) -> Order
        ensures { result ≡ record self { codes = record self.codes { security_code = code } } }
    {
        let codes = Codes {
            security_code: code,
            ..self.codes
        };
        Order { codes, ..self }
    }

    // With this bid and ask.
    pub fn quotes(self, bid: u32, ask: u32) -> Order
        ensures { result ≡ record self { references = record self.references { current_bid = reference_of bid; current_ask = reference_of ask } } }
    {
        let references = References {
            current_bid: Reference::from(bid),
            current_ask: Reference::from(ask),
            ..self.references
        };
        Order { references, ..self }
    }

    // With this last bid and last ask.
    pub fn last_quotes(self, bid: u32, ask: u32) -> Order
        ensures { result ≡ record self { references = record self.references { last_bid = reference_of bid; last_ask = reference_of ask } } }
    {
        let references = References {
            last_bid: Reference::from(bid),
            last_ask: Reference::from(ask),
            ..self.references
        };
        Order { references, ..self }
    }

    // With this previous close.
    pub fn close(self, close: u32) -> Order
        ensures { result ≡ record self { references = record self.references { previous_close = reference_of close } } }
    {
        let references = References {
            previous_close: Reference::from(close),
            ..self.references
        };
        Order { references, ..self }
    }

    // With this day low and day high.
    pub fn day(self, low: u32, high: u32) -> Order
        ensures { result ≡ record self { references = record self.references { day_low = reference_of low; day_high = reference_of high } } }
    {
        let references = References {
            day_low: Reference::from(low),
            day_high: Reference::from(high),
            ..self.references
        };
        Order { references, ..self }
    }

    // With this nominal price.
    pub fn nominal(self, nominal: u32) -> Order
        ensures { result ≡ record self { references = record self.references { nominal = reference_of nominal } } }
    {
        let references = References {
            nominal: Reference::from(nominal),
            ..self.references
        };
        Order { references, ..self }
    }
}

// The bytes of an order at a price, as a question.
pub fn question(order: Order, price: u32) -> [u8; QUESTION_BYTES]
    ensures { result ≡ bytes_of (asked order price) }
{
    encoding::encode(Question {
        codes: order.codes,
        price,
        references: order.references,
    })
}
