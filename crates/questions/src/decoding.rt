// A question from its bytes.
ghost use Rattle.std.specs.Prelude.{◌≡◌, ◌+◌, ◌≤◌, length};
ghost use Rattle.little_endian.specs.Numbers.{number};
ghost use Rattle.questions.specs.Missing.{reference_of};
ghost use Rattle.questions.specs.Record.{security_byte, security_code_of, side_of, price_byte, codes_of, price_of, references_of, decoded};

use super::{Codes, QUESTION_BYTES, Question, Reference, References};

// The security code of a question, whatever number stands there.
pub fn security_code_of(s: &[u8]) -> u32
    requires { security_byte + 4 ≤ length s.now }
    ensures { result ≡ security_code_of s.now }
{
    little_endian::number_at(s, 40)
}

// The side of a question, whatever number stands there.
pub fn side_of(s: &[u8]) -> u8
    requires { 1 ≤ length s.now }
    ensures { result ≡ side_of s.now }
{
    s[0]
}

#[tactic(auto, unfolding(crate::specs::Record::codes_of))]
fn codes_of(s: &[u8; QUESTION_BYTES]) -> Codes
    ensures { result ≡ codes_of s.now }
{
    Codes {
        side: side_of(s),
        order_type: s[1],
        queue: s[2],
        byte_3: s[3],
        security_code: security_code_of(s),
    }
}

// The order price of a question.
pub fn price_of(s: &[u8]) -> u32
    requires { price_byte + 4 ≤ length s.now }
    ensures { result ≡ price_of s.now }
{
    little_endian::number_at(s, 4)
}

fn reference_at(s: &[u8], at: usize) -> Reference
    requires { at + 4 ≤ length s.now }
    ensures { result ≡ reference_of (number at s.now) }
{
    Reference::from(little_endian::number_at(s, at))
}

#[tactic(auto, unfolding(crate::specs::Record::references_of))]
fn references_of(s: &[u8; QUESTION_BYTES]) -> References
    ensures { result ≡ references_of s.now }
{
    References {
        current_bid: reference_at(s, 8),
        current_ask: reference_at(s, 12),
        last_bid: reference_at(s, 16),
        last_ask: reference_at(s, 20),
        previous_close: reference_at(s, 24),
        day_low: reference_at(s, 28),
        day_high: reference_at(s, 32),
        nominal: reference_at(s, 36),
    }
}

// The question that the bytes hold; none where they are not as many as a question has.
pub fn decode(s: &[u8]) -> Option<Question>
    ensures { result ≡ decoded s.now }
{
    let record = s.as_array()?;
    Some(Question {
        codes: codes_of(record),
        price: price_of(record),
        references: references_of(record),
    })
}
