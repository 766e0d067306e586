// The verdict on a trade price, and the answer.
ghost use Rattle.std.specs.Prelude.{◌≡◌};
ghost use Rattle.ladder.specs.Layout.{prices_of};
ghost use Rattle.limits.specs.Terms.{basis_found};
ghost use Rattle.trades.specs.Trades.{trade_verdict, trade_judged, trade_judged_by};

use super::{TradeReferences, readings};
use judging::{Answer, Verdict, answers};
use ladder::table::SpreadTable;
use limits::terms::{BadTerms, Terms};
use ranges::Range;

// The verdict on a trade price: checks 6, 8 and 9. It need not be a ladder price, and the nine-fold rule is not for trades.
#[tactic(auto, unfolding(crate::specs::Trades::trade_verdict))]
pub fn verdict_on(table: &SpreadTable, range: Range, price: u32) -> Verdict
    ensures { result ≡ trade_verdict (prices_of table.now) range price }
{
    if table.is_outside(price) {
        return Verdict::OutsideLadder;
    }
    if price < range.lowest {
        return Verdict::BelowLowest;
    }
    if range.highest < price {
        return Verdict::AboveHighest;
    }
    Verdict::Accepted
}

// The answer to a trade.
#[tactic(auto, unfolding(crate::specs::Trades::trade_judged))]
#[inline(always)]
pub fn judge(terms: &Terms, price: u32, references: TradeReferences) -> Answer
    ensures { result ≡ trade_judged (prices_of terms.now.table) terms.now.percentage price references }
{
    let range = match readings::reading_of(terms, references) {
        Ok(range) => range,
        Err(refusal) => return answers::refused(refusal),
    };
    let verdict = verdict_on(&terms.table, range, price);
    Answer {
        number: answers::verdict_number(verdict),
        lowest: range.lowest,
        highest: range.highest,
    }
}

// The answer to a trade, for a call that names its terms.
#[inline(always)]
pub fn judge_by(found: &Result<Terms, BadTerms>, price: u32, references: TradeReferences) -> Answer
    ensures { result ≡ trade_judged_by (basis_found found.now) price references }
{
    match found {
        Ok(terms) => judge(terms, price, references),
        Err(bad) => answers::none_shown(bad.number()),
    }
}
