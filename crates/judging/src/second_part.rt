// The second part: a price against any range, whoever made it.
ghost use Rattle.std.specs.Prelude.{◌≡◌};
ghost use Rattle.ladder.specs.Layout.{prices_of};
ghost use Rattle.limits.specs.Terms.{basis_found};
ghost use Rattle.judging.specs.Answers.{answer_on, prepared_judged_by};

use super::answers::{answer, none_shown, verdict_number};
use super::{Answer, Shown, Verdict, showing, verdicts};
use ladder::table::SpreadTable;
use limits::terms::{BadTerms, Terms};
use ranges::Range;

// The answer to a price against a range. Most orders are accepted, which is told at once: the price lies between the bounds as the nine-fold rule
// cuts them, and the three are ladder prices of one band, so that both bounds are shown as they are. Else the checks go in number order.
#[tactic(auto, using(crate::proofs::Acceptance::accepted_among))]
#[inline(always)]
pub fn judge_prepared(table: &SpreadTable, range: Range, price: u32) -> Answer
    ensures { result ≡ answer_on (prices_of table.now) range price }
{
    let from = showing::cut_lowest(range.lowest, range.nine_fold);
    let to = showing::cut_highest(range.highest, range.nine_fold);
    let looked_up = table.look_up(price);
    if from <= price && price <= to && looked_up.is_among(from, to) {
        let shown = Shown {
            lowest: from,
            highest: to,
        };
        return answer(verdict_number(Verdict::Accepted), shown);
    }
    let number = verdict_number(verdicts::verdict_on(range, &looked_up));
    answer(number, showing::shown_of(table, range))
}

// The same for a call that names its terms, of which it uses the table.
#[inline(always)]
pub fn judge_prepared_by(found: &Result<Terms, BadTerms>, range: Range, price: u32) -> Answer
    ensures { result ≡ prepared_judged_by (basis_found found.now) range price }
{
    match found {
        Ok(terms) => judge_prepared(&terms.table, range, price),
        Err(bad) => none_shown(bad.number()),
    }
}
