// Judging: the second part, which is the verdict on a price and the shown range; and a question, by the first part and the second.
//
// Calls of this file that end in `_on` use the table that a number names, the others that of the calls that name none; whole questions are judged
// at 5 percent. Functions of `showing`, `verdicts`, `second_part` and `answers` that are lent a table or terms hold for every well-formed table
// of prices below 2^31 and any percentage. Prices are whole mils.
#![tactic(auto)]

pub mod showing; // showing.rt: the nine-fold rule and the shown range
pub mod verdicts; // verdicts.rt: the verdict on a price
pub mod second_part; // second_part.rt: the second part, a price against any range
pub mod answers; // answers.rt: a verdict as its number, answers, and the answer to a question, by both parts

ghost use Rattle.std.specs.Prelude.{◌≡◌};
ghost use Rattle.ladder.specs.Named.{usual_ladder};
ghost use Rattle.limits.specs.Limits.{five_percent};
ghost use Rattle.limits.specs.Terms.{terms_on};
ghost use Rattle.judging.specs.Answers.{answer_on, prepared_judged_by, judged, judged_by};

use limits::terms::terms_on;
use ranges::Range;
use tables::USUAL_TABLE;

// The range that is shown: its lowest and highest price, or 0 and 0 where no price is left.
#[derive(Clone, Copy, Debug, PartialEq, Eq)]
pub struct Shown {
    pub lowest: u32,
    pub highest: u32,
}

// The verdict on a price against a permitted range, with document 01's number.
#[derive(Clone, Copy, Debug, PartialEq, Eq)]
pub enum Verdict {
    Accepted = 0,
    // Under the first ladder price, or over the last.
    OutsideLadder = 6,
    // Between two ladder prices.
    BetweenPrices = 7,
    // Below the permitted lowest.
    BelowLowest = 8,
    // Above the permitted highest.
    AboveHighest = 9,
    // Nine times its reference or more, or a ninth of it or less.
    NineFold = 10,
}

// An answer: its number, and the lowest and highest price shown.
#[repr(C)]
#[derive(Clone, Copy, Debug, PartialEq, Eq)]
pub struct Answer {
    pub number: u32,
    pub lowest: u32,
    pub highest: u32,
}

// The answer to a question on the table that a number names; 14, with 0 and 0, where it names none. Bytes of any other length get 1, with 0
// and 0.
pub fn judge_on(table: u32, question: &[u8]) -> Answer
    ensures { result ≡ judged_by (terms_on table) question.now }
{
    answers::judge_by(&terms_on(table), question)
}

// The answer to a question; bytes of any other length get 1, with 0 and 0.
#[tactic(auto, using(crate::proofs::Laws::usual))]
pub fn judge(question: &[u8]) -> Answer
    ensures { result ≡ judged usual_ladder five_percent question.now }
{
    judge_on(USUAL_TABLE, question)
}

// The second part: the answer to a price against a range, on the table that a number names; 14, with 0 and 0, where it names none. The range may be
// any three numbers, also of a stranger.
#[inline(always)]
pub fn judge_prepared_on(table: u32, range: Range, price: u32) -> Answer
    ensures { result ≡ prepared_judged_by (terms_on table) range price }
{
    second_part::judge_prepared_by(&terms_on(table), range, price)
}

// The same on the usual table.
#[tactic(auto, using(crate::proofs::Laws::usual_prepared))]
#[inline(always)]
pub fn judge_prepared(range: Range, price: u32) -> Answer
    ensures { result ≡ answer_on usual_ladder range price }
{
    judge_prepared_on(USUAL_TABLE, range, price)
}
