// The first part: the reading of a question's codes and references. What it gives does not depend on the order price.
ghost use Rattle.std.specs.Prelude.{◌≡◌};
ghost use Rattle.ladder.specs.Layout.{prices_of};
ghost use Rattle.limits.specs.Terms.{basis_found};
ghost use Rattle.preparing.specs.Prepared.{prepared, without_terms, prepared_by};

use super::{Prepared, Unprepared};
use limits::terms::{BadTerms, Terms};
use questions::{QUESTION_BYTES, decoding};
use ranges::readings;

// The permitted range of a question as bytes, or why it has none.
#[tactic(auto, unfolding(crate::specs::Prepared::prepared))]
pub fn prepare(terms: &Terms, question: &[u8]) -> Prepared
    ensures { result ≡ prepared (prices_of terms.now.table) terms.now.percentage question.now }
{
    let Some(asked) = decoding::decode(question) else {
        return Err(Unprepared::WrongLength);
    };
    let range = readings::reading_of(terms, asked.codes, asked.references)?;
    Ok(range)
}

// Why a question has no range where the terms that a call names are bad: that comes after a wrong length.
pub fn without_terms(bad: BadTerms, question: &[u8]) -> Unprepared
    ensures { result ≡ without_terms bad question.now }
{
    if question.len() == QUESTION_BYTES {
        return Unprepared::WithBadTerms(bad);
    }
    Unprepared::WrongLength
}

// The permitted range of a question, or why it has none, for a call that names its terms.
pub fn prepare_by(found: &Result<Terms, BadTerms>, question: &[u8]) -> Prepared
    ensures { result ≡ prepared_by (basis_found found.now) question.now }
{
    match found {
        Ok(terms) => prepare(terms, question),
        Err(bad) => Err(without_terms(*bad, question)),
    }
}
