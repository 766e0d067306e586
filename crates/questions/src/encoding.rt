// The bytes of a question.
ghost use Rattle.std.specs.Prelude.{◌≡◌, ◌+◌, ◌≤◌};
ghost use Rattle.std.proofs.lemmas.List.Edits.{sets};
ghost use Rattle.little_endian.specs.Numbers.{four_bytes};
ghost use Rattle.questions.specs.Missing.{number_of};
ghost use Rattle.questions.specs.Record.{question_bytes, bytes_of};

use super::{QUESTION_BYTES, Question, Reference};

// The bytes with a number written from a byte on. (`sets s at part` is s with `part` stored from `at` on.)
fn with_number(mut bytes: [u8; QUESTION_BYTES], at: usize, number: u32) -> [u8; QUESTION_BYTES]
    requires { at + 4 ≤ question_bytes }
    ensures { result ≡ sets bytes at (four_bytes number) }
{
    little_endian::put(&mut bytes[at..at + 4], number);
    bytes
}

// The same with a reference: 0 where it is missing.
fn with_reference(
    bytes: [u8; QUESTION_BYTES],
    at: usize,
    reference: Reference,
) -> [u8; QUESTION_BYTES]
    requires { at + 4 ≤ question_bytes }
    ensures { result ≡ sets bytes at (four_bytes (number_of reference)) }
{
    with_number(bytes, at, u32::from(reference))
}

// The bytes that hold a question: `decoding::decode` gives it back, where no reference is a price of 0, which stands for missing.
pub fn encode(question: Question) -> [u8; QUESTION_BYTES]
    ensures { result ≡ bytes_of question }
{
    let references = question.references;
    let mut bytes = [0u8; QUESTION_BYTES];
    bytes[0] = question.codes.side;
    bytes[1] = question.codes.order_type;
    bytes[2] = question.codes.queue;
    bytes[3] = question.codes.byte_3;
    bytes = with_number(bytes, 4, question.price);
    bytes = with_reference(bytes, 8, references.current_bid);
    bytes = with_reference(bytes, 12, references.current_ask);
    bytes = with_reference(bytes, 16, references.last_bid);
    bytes = with_reference(bytes, 20, references.last_ask);
    bytes = with_reference(bytes, 24, references.previous_close);
    bytes = with_reference(bytes, 28, references.day_low);
    bytes = with_reference(bytes, 32, references.day_high);
    bytes = with_reference(bytes, 36, references.nominal);
    bytes = with_number(bytes, 40, question.codes.security_code);
    bytes
}
