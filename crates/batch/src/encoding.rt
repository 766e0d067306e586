// An answer as 12 bytes.
ghost use Rattle.std.specs.Prelude.{◌≡◌, length};
ghost use Rattle.batch.specs.Record.{answer_bytes, encoded};

use judging::Answer;

// Writes an answer.
pub(crate) fn encode(part: &mut [u8], answer: Answer)
    requires { length part.old ≡ answer_bytes }
    ensures { part.new ≡ encoded answer }
{
    little_endian::put(&mut part[0..4], answer.number);
    little_endian::put(&mut part[4..8], answer.lowest);
    little_endian::put(&mut part[8..12], answer.highest);
}
