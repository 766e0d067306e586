// The first part of judging: a question without its order price, to its permitted range with its nine-fold reference, or why it has none. The second
// part, a price against such a range, is in the crate `judging` above.
//
// The calls of this file are at 5 percent: `prepare_on` uses the table that a number names, `prepare` that of the calls that name none. Functions of
// `first_part` are lent terms and hold for every well-formed table of prices below 2^31 and any percentage. Prices are whole mils.
#![tactic(auto)]

pub mod first_part; // first_part.rt: the first part, by terms that are lent
pub mod reasons; // reasons.rt: why a question has no range, by its number
pub mod numbers; // numbers.rt: what the first part gives as plain numbers, for C

ghost use Rattle.std.specs.Prelude.{◌≡◌};
ghost use Rattle.ladder.specs.Named.{usual_ladder};
ghost use Rattle.limits.specs.Limits.{five_percent};
ghost use Rattle.limits.specs.Terms.{terms_on};
ghost use Rattle.preparing.specs.Prepared.{prepared, prepared_by};

use limits::terms::{BadTerms, terms_on};
use ranges::{Range, Refusal};
use tables::USUAL_TABLE;

// Why a question has no range.
#[derive(Clone, Copy, Debug, PartialEq, Eq)]
pub enum Unprepared {
    // It has not as many bytes as a question.
    WrongLength,
    // By the terms that the call names.
    WithBadTerms(BadTerms),
    // By its codes, the security code among them, or its references.
    Refused(Refusal),
}

// What the first part gives: the permitted range, not cut by the nine-fold rule, with that rule's reference; or why there is none.
pub type Prepared = Result<Range, Unprepared>;

// The same as plain numbers, for C: 0 and the range, where 0 stands for a missing nine-fold reference; or the number of why there is none, and
// zeros.
#[repr(C)]
#[derive(Clone, Copy, Debug, PartialEq, Eq)]
pub struct PreparedNumbers {
    pub number: u32,
    pub lowest: u32,
    pub highest: u32,
    pub nine_fold: u32,
}

// The first part of a question, on the table that a number names. What it gives does not depend on the order price.
pub fn prepare_on(table: u32, question: &[u8]) -> Prepared
    ensures { result ≡ prepared_by (terms_on table) question.now }
{
    first_part::prepare_by(&terms_on(table), question)
}

// The same on the usual table.
#[tactic(auto, using(crate::proofs::Laws::usual))]
pub fn prepare(question: &[u8]) -> Prepared
    ensures { result ≡ prepared usual_ladder five_percent question.now }
{
    prepare_on(USUAL_TABLE, question)
}
