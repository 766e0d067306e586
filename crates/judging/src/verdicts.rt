// The verdict on a price against a permitted range: checks 6 to 10 in number order.
ghost use Rattle.std.specs.Prelude.{◌≡◌};
ghost use Rattle.ladder.specs.Layout.{prices_of};
ghost use Rattle.judging.specs.Verdicts.{verdict_of};

use super::{Verdict, showing};
use ladder::looked_up::LookedUp;
use ranges::Range;

// The verdict on a price that is looked up.
#[tactic(auto, unfolding(crate::specs::Verdicts::verdict_of))]
pub fn verdict_on(range: Range, looked_up: &LookedUp) -> Verdict
    ensures { result ≡ verdict_of (prices_of looked_up.now.table) range looked_up.now.price }
{
    let price = looked_up.price;
    if looked_up.is_outside() {
        return Verdict::OutsideLadder;
    }
    if !looked_up.is_on() {
        return Verdict::BetweenPrices;
    }
    if price < range.lowest {
        return Verdict::BelowLowest;
    }
    if range.highest < price {
        return Verdict::AboveHighest;
    }
    if !showing::does_pass(range.nine_fold, price) {
        return Verdict::NineFold;
    }
    Verdict::Accepted
}
