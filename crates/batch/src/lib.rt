// A batch: many questions, judged into one answer buffer.
//
// The calls of this file are at 5 percent: `judge_batch_on` uses the table that a number names, `judge_batch` that of the calls that name none.
// `batches::answer_each` takes terms and holds for every well-formed table of prices below 2^31 and any percentage.
#![tactic(auto)]

mod batches; // batches.rt: the checks on a batch, and its answers one after the other
mod encoding; // encoding.rt: an answer as 12 bytes

ghost use Rattle.std.specs.Prelude.{◌≡◌, length};
ghost use Rattle.ladder.specs.Named.{usual_ladder};
ghost use Rattle.limits.specs.Limits.{five_percent};
ghost use Rattle.limits.specs.Terms.{terms_on};
ghost use Rattle.batch.specs.declared.TurnedAway.TheVariants.{WithBadTerms};
ghost use Rattle.batch.specs.Batch.{counted, turned_away_number, outcome_by, buffer_after, counted_by, buffer_found};

use limits::terms::{BadTerms, terms_on};
use preparing::reasons::WRONG_LENGTH;
use tables::USUAL_TABLE;

// How many bytes an answer has.
pub const ANSWER_BYTES: usize = 12;

// How many questions a batch may have.
pub const MOST_QUESTIONS: usize = 1000;

// Why a batch is turned away.
#[derive(Clone, Copy, Debug, PartialEq, Eq)]
pub enum TurnedAway {
    // By its bytes, or by those of its answer buffer.
    NotABatch,
    // By the terms that its call names.
    WithBadTerms(BadTerms),
}

impl TurnedAway {
    // The number.
    pub fn number(self) -> u32
        ensures { result ≡ turned_away_number self }
    {
        match self {
            TurnedAway::NotABatch => WRONG_LENGTH,
            TurnedAway::WithBadTerms(bad) => bad.number(),
        }
    }
}

impl From<BadTerms> for TurnedAway {
    ghost from_gives = { λ bad why. why ≡ WithBadTerms bad };

    fn from(bad: BadTerms) -> TurnedAway {
        TurnedAway::WithBadTerms(bad)
    }
}

// The outcome of a batch, for C: 0 and how many questions were judged, or the number of why it is turned away, and 0.
#[repr(C)]
#[derive(Clone, Copy, Debug, PartialEq, Eq)]
pub struct Outcome {
    pub number: u32,
    pub count: u32,
}

impl From<Result<u32, TurnedAway>> for Outcome {
    ghost from_gives = { λ judged outcome. outcome ≡ outcome_by judged };

    fn from(judged: Result<u32, TurnedAway>) -> Outcome {
        match judged {
            Ok(count) => Outcome { number: 0, count },
            Err(why) => Outcome {
                number: why.number(),
                count: 0,
            },
        }
    }
}

// Judges each question of a batch on the table that a number names, and answers how many there are. Answer k goes into bytes 12 k to 12 k + 11
// of the buffer, and the bytes after the last answer keep their content. Bytes that are no batch, or a buffer that is too short, are turned away,
// and then a number that names no table: the buffer then keeps every byte.
pub fn judge_batch_on(table: u32, questions: &[u8], answers: &mut [u8]) -> Result<u32, TurnedAway>
    ensures count { result ≡ counted_by (terms_on table) (length questions.now) (length answers.old) }
    ensures buffer { answers.new ≡ buffer_found (terms_on table) questions.now answers.old }
{
    let count = batches::count(questions.len(), answers.len())?;
    // Looked for here and not handed in, so that the compiler knows how many bands there are.
    let terms = terms_on(table)?;
    batches::answer_each(&terms, questions, answers);
    Ok(count as u32)
}

// The same on the table of the calls that name none.
pub fn judge_batch(questions: &[u8], answers: &mut [u8]) -> Result<u32, TurnedAway>
    ensures count { result ≡ counted (length questions.now) (length answers.old) }
    ensures buffer { answers.new ≡ buffer_after usual_ladder five_percent questions.now answers.old }
{
    judge_batch_on(USUAL_TABLE, questions, answers)
}
