// A verdict as its number, answers, and the answer to a question.
ghost use Rattle.std.specs.Prelude.{◌≡◌, Some};
ghost use Rattle.ladder.specs.Layout.{prices_of};
ghost use Rattle.limits.specs.Terms.{basis_found};
ghost use Rattle.judging.specs.Numbers.{verdict_number};
ghost use Rattle.judging.specs.Answers.{none_shown, refused_answer, answer_with, judged, judged_by, answer_text};

use super::{Answer, Shown, Verdict, second_part, showing};
use limits::terms::{BadTerms, Terms};
use preparing::first_part;
use preparing::reasons::refusal_number;
use questions::decoding;
use ranges::Refusal;
use std::fmt;

// The number of a verdict.
pub fn verdict_number(verdict: Verdict) -> u32
    ensures { result ≡ verdict_number verdict }
{
    verdict as u32
}

// The three numbers in decimal, with single blanks.
impl fmt::Display for Answer {
    ghost output = { λ answer. Some (answer_text answer) };

    fn fmt<W: fmt::Write>(&self, f: &mut fmt::Formatter<W>) -> fmt::Result {
        write!(f, "{} {} {}", self.number, self.lowest, self.highest)
    }
}

// An answer with no range.
pub fn none_shown(number: u32) -> Answer
    ensures { result ≡ none_shown number }
{
    answer(number, showing::NONE)
}

// The answer where codes or references are refused.
pub fn refused(refusal: Refusal) -> Answer
    ensures { result ≡ refused_answer refusal }
{
    none_shown(refusal_number(refusal))
}

// An answer with a range.
pub(crate) fn answer(number: u32, shown: Shown) -> Answer
    ensures { result ≡ answer_with number shown }
{
    Answer {
        number,
        lowest: shown.lowest,
        highest: shown.highest,
    }
}

// The answer to a question as bytes, by both parts.
#[tactic(auto, using(crate::proofs::Parts::told_why, crate::proofs::Parts::priced, crate::proofs::Parts::has_bytes))]
pub fn judge(terms: &Terms, question: &[u8]) -> Answer
    ensures { result ≡ judged (prices_of terms.now.table) terms.now.percentage question.now }
{
    let prepared = first_part::prepare(terms, question);
    let Ok(range) = prepared else {
        return none_shown(prepared.unwrap_err().number());
    };
    let price = decoding::price_of(question);
    second_part::judge_prepared(&terms.table, range, price)
}

// The answer to a question as bytes, for a call that names its terms. That they are bad comes after 1.
pub fn judge_by(found: &Result<Terms, BadTerms>, question: &[u8]) -> Answer
    ensures { result ≡ judged_by (basis_found found.now) question.now }
{
    match found {
        Ok(terms) => judge(terms, question),
        Err(bad) => none_shown(first_part::without_terms(*bad, question).number()),
    }
}
