// The batch for C: the functions of include/hendovita.h that judge many questions. The other functions for C are in `interface`.
//
// They are a crate of their own so that the whole judge has one caller in the object that is made of it.
#![tactic(auto)]

ghost use Rattle.std.specs.Prelude.{◌≡◌};
ghost use Rattle.ladder.specs.Named.{usual_ladder};
ghost use Rattle.limits.specs.Limits.{five_percent};
ghost use Rattle.limits.specs.Terms.{terms_on};
ghost use Rattle.batch.specs.Batch.{outcome_of, buffer_after, outcome_found, buffer_found};

use batch::Outcome;

// As batch::judge_batch, for C, where a slice is a pointer and a length, and what is answered an `Outcome`.
#[unsafe(no_mangle)]
pub extern "C" fn hendovita_judge_batch(questions: &[u8], answers: &mut [u8]) -> Outcome
    ensures outcome { result ≡ outcome_of questions.now answers.old }
    ensures buffer { answers.new ≡ buffer_after usual_ladder five_percent questions.now answers.old }
{
    Outcome::from(batch::judge_batch(questions, answers))
}

// As batch::judge_batch_on, likewise.
#[unsafe(no_mangle)]
pub extern "C" fn hendovita_judge_batch_on(
    table: u32,
    questions: &[u8],
    answers: &mut [u8],
) -> Outcome
    ensures outcome { result ≡ outcome_found (terms_on table) questions.now answers.old }
    ensures buffer { answers.new ≡ buffer_found (terms_on table) questions.now answers.old }
{
    Outcome::from(batch::judge_batch_on(table, questions, answers))
}
