// The checks on a batch, and its answers one after the other.
ghost use Rattle.std.specs.Prelude.{◌≡◌, ◌*◌, ◌≤◌, length};
ghost use Rattle.ladder.specs.Layout.{prices_of};
ghost use Rattle.questions.specs.Record.{count_of};
ghost use Rattle.batch.specs.Record.{answer_bytes};
ghost use Rattle.batch.specs.Batch.{answered, counted};

use super::{ANSWER_BYTES, MOST_QUESTIONS, TurnedAway, encoding};
use judging::answers::judge as judge_question;
use limits::terms::Terms;
use questions::QUESTION_BYTES;

// How many questions a batch has, or that it is turned away: by its bytes, and those of the answer buffer.
pub(crate) fn count(asked: usize, room: usize) -> Result<usize, TurnedAway>
    ensures { result ≡ counted asked room }
{
    let count = asked / QUESTION_BYTES;
    let is_refused = (asked % QUESTION_BYTES != 0)
        | (MOST_QUESTIONS < count)
        | (room < count * ANSWER_BYTES);
    if is_refused {
        return Err(TurnedAway::NotABatch);
    }
    Ok(count)
}

// Judges each question, by its first and its second part, into the buffer of its answers.
pub(crate) fn answer_each(terms: &Terms, questions: &[u8], answers: &mut [u8])
    requires room { count_of (length questions.now) * answer_bytes ≤ length answers.old }
    ensures { answers.new ≡ answered (prices_of terms.now.table) terms.now.percentage (count_of (length questions.now)) questions.now answers.old }
{
    for (k, question) in questions.chunks_exact(QUESTION_BYTES).enumerate() {
        let answer = judge_question(terms, question);
        let start = k * ANSWER_BYTES;
        encoding::encode(&mut answers[start..start + ANSWER_BYTES], answer);
    }
}
