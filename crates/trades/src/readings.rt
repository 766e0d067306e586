// The reading of a trade's references: checks 3 and 4, then the range of the trade. It does not look at the trade price.
ghost use Rattle.std.specs.Prelude.{◌≡◌};
ghost use Rattle.ladder.specs.Layout.{prices_of};
ghost use Rattle.trades.specs.Trades.{any_trade_off, trade_disagrees, trade_lowest, trade_highest, trade_reading};

use super::TradeReferences;
use ladder::table::SpreadTable;
use limits::terms::Terms;
use questions::{Reference, checks};
use ranges::{Range, Reading, Refusal, bounds};

impl TradeReferences {
    // Whether one is bad: a bid or an ask that is no ladder price, or the previous close outside the ends.
    #[tactic(auto, unfolding(crate::specs::Trades::any_trade_off))]
    fn any_off(self, table: &SpreadTable) -> bool
        ensures { result ≡ any_trade_off (prices_of table.now) self }
    {
        let ladder_prices = [
            self.lowest_bid,
            self.lowest_ask,
            self.highest_bid,
            self.highest_ask,
        ];
        self.previous_close.lies_outside(table) | checks::any_off(&ladder_prices, table)
    }

    // Whether the bids or the asks disagree.
    fn disagree(self) -> bool
        ensures { result ≡ trade_disagrees self }
    {
        checks::is_bad_pair(self.lowest_bid, self.highest_bid)
            | checks::is_bad_pair(self.lowest_ask, self.highest_ask)
    }
}

// The lowest price of a trade.
#[inline(always)]
fn lowest_of(terms: &Terms, references: TradeReferences) -> u32
    ensures { result ≡ trade_lowest (prices_of terms.now.table) terms.now.percentage references }
{
    let limit = bounds::lower_limit(terms, references.previous_close);
    let bid = references.lowest_bid;
    let ask = references.lowest_ask;
    limit
        .least(bid.least(ask))
        .price_or(terms.table.first_price())
}

// The highest price of a trade.
#[inline(always)]
fn highest_of(terms: &Terms, references: TradeReferences) -> u32
    ensures { result ≡ trade_highest (prices_of terms.now.table) terms.now.percentage references }
{
    let limit = bounds::upper_limit(terms, references.previous_close);
    let bid = references.highest_bid;
    let ask = references.highest_ask;
    limit
        .greatest(bid.greatest(ask))
        .price_or(terms.table.last_price())
}

// The reading of a trade's references.
#[tactic(auto, unfolding(crate::specs::Trades::trade_reading))]
#[inline(always)]
pub fn reading_of(terms: &Terms, references: TradeReferences) -> Reading
    ensures { result ≡ trade_reading (prices_of terms.now.table) terms.now.percentage references }
{
    if references.any_off(&terms.table) {
        return Err(Refusal::OffLadder);
    }
    if references.disagree() {
        return Err(Refusal::Disagreement);
    }
    Ok(Range {
        lowest: lowest_of(terms, references),
        highest: highest_of(terms, references),
        nine_fold: Reference::Missing,
    })
}
