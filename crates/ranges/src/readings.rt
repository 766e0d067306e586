// The reading of a question: checks 2, 15 and 3 to 5 in this order, then its permitted range. It does not look at the order price.
ghost use Rattle.std.specs.Prelude.{◌≡◌};
ghost use Rattle.ladder.specs.Layout.{prices_of};
ghost use Rattle.ranges.specs.Readings.{reading_of};

use super::{Reading, Refusal, permitted};
use limits::terms::Terms;
use questions::checks::is_bad_security_code;
use questions::{Codes, References};

// The reading of a question's codes and references.
#[tactic(auto, unfolding(crate::specs::Readings::reading_of, crate::specs::Readings::reading_by))]
pub fn reading_of(terms: &Terms, codes: Codes, references: References) -> Reading
    ensures { result ≡ reading_of (prices_of terms.now.table) terms.now.percentage codes references }
{
    let chosen = rules::choose(codes, references).ok_or(Refusal::UnknownCode)?;
    if is_bad_security_code(codes.security_code) {
        return Err(Refusal::BadSecurityCode);
    }
    if references.any_off(&terms.table) {
        return Err(Refusal::OffLadder);
    }
    if chosen.queues.disagree(references) {
        return Err(Refusal::Disagreement);
    }
    if chosen.is_unopposed() {
        return Err(Refusal::NoOpposite);
    }
    Ok(permitted::range_of(terms, chosen, references))
}
