// The permitted range, rule by rule.
ghost use Rattle.std.specs.Prelude.{◌≡◌};
ghost use Rattle.ladder.specs.Layout.{prices_of};
ghost use Rattle.ranges.specs.Permitted.{unless_both_missing, buy_reference, sell_reference, buy_lowest, sell_highest, lowest_of, highest_of, nine_fold_reference, range_of};

use super::{Range, bounds};
use limits::terms::Terms;
use questions::{Reference, References};
use rules::{Chosen, Queues, Rule};

// A reference, but none where these two are missing both.
fn unless_both_missing(a: Reference, b: Reference, reference: Reference) -> Reference
    ensures { result ≡ unless_both_missing a b reference }
{
    if !a.is_present() & !b.is_present() {
        return Reference::Missing;
    }
    reference
}

// The reference whose lower limit is the lowest price of a buy; missing where that is the bottom.
fn buy_reference(queues: Queues, close: Reference, low: Reference) -> Reference
    ensures { result ≡ buy_reference queues close low }
{
    match queues {
        Queues::Opening => close,
        Queues::Both(bid, _) | Queues::BuyOnly(bid) => bid,
        Queues::SellOnly(ask) => ask.least(close.least(low)),
        Queues::Neither(_, last_ask) => {
            let least = last_ask.least(close.least(low));
            unless_both_missing(close, low, least)
        }
    }
}

// The reference whose upper limit is the highest price of a sell; missing where that is the top.
fn sell_reference(queues: Queues, close: Reference, high: Reference) -> Reference
    ensures { result ≡ sell_reference queues close high }
{
    match queues {
        Queues::Opening => close,
        Queues::Both(_, ask) | Queues::SellOnly(ask) => ask,
        Queues::BuyOnly(bid) => bid.greatest(close.greatest(high)),
        Queues::Neither(last_bid, _) => {
            let greatest = last_bid.greatest(close.greatest(high));
            unless_both_missing(close, high, greatest)
        }
    }
}

// The lowest price of a limit or enhanced limit buy.
fn buy_lowest(terms: &Terms, queues: Queues, references: References) -> u32
    ensures { result ≡ buy_lowest (prices_of terms.now.table) terms.now.percentage queues references }
{
    let close = references.previous_close;
    let low = references.day_low;
    let limit = bounds::lower_limit(terms, buy_reference(queues, close, low));
    limit.price_or(terms.table.first_price())
}

// The highest price of a limit or enhanced limit sell.
fn sell_highest(terms: &Terms, queues: Queues, references: References) -> u32
    ensures { result ≡ sell_highest (prices_of terms.now.table) terms.now.percentage queues references }
{
    let close = references.previous_close;
    let high = references.day_high;
    let limit = bounds::upper_limit(terms, sell_reference(queues, close, high));
    limit.price_or(terms.table.last_price())
}

// The lowest price that a rule permits.
#[tactic(auto, unfolding(crate::specs::Permitted::lowest_of))]
fn lowest_of(terms: &Terms, chosen: Chosen, references: References) -> u32
    ensures { result ≡ lowest_of (prices_of terms.now.table) terms.now.percentage chosen.rule chosen.queues references }
{
    let queues = chosen.queues;
    let bottom = terms.table.first_price();
    match chosen.rule {
        Rule::BuyLimit | Rule::BuyEnhanced => buy_lowest(terms, queues, references),
        Rule::BuySpecial => queues.ask().price_or(bottom),
        Rule::SellLimit => queues.bid().price_or(bottom),
        Rule::SellEnhanced => bounds::enhanced_below(&terms.table, queues.bid()).price_or(bottom),
        Rule::SellSpecial => bottom,
    }
}

// The highest price that a rule permits.
#[tactic(auto, unfolding(crate::specs::Permitted::highest_of))]
fn highest_of(terms: &Terms, chosen: Chosen, references: References) -> u32
    ensures { result ≡ highest_of (prices_of terms.now.table) terms.now.percentage chosen.rule chosen.queues references }
{
    let queues = chosen.queues;
    let top = terms.table.last_price();
    match chosen.rule {
        Rule::BuyLimit => queues.ask().price_or(top),
        Rule::BuyEnhanced => bounds::enhanced_above(&terms.table, queues.ask()).price_or(top),
        Rule::BuySpecial => top,
        Rule::SellLimit | Rule::SellEnhanced => sell_highest(terms, queues, references),
        Rule::SellSpecial => queues.bid().price_or(top),
    }
}

// The reference of the nine-fold rule.
fn nine_fold_reference(queues: Queues, close: Reference, nominal: Reference) -> Reference
    ensures { result ≡ nine_fold_reference queues close nominal }
{
    match queues {
        Queues::Opening => close,
        Queues::Both(..) | Queues::BuyOnly(_) | Queues::SellOnly(_) | Queues::Neither(..) => {
            nominal
        }
    }
}

// The range that a rule permits.
#[tactic(auto, unfolding(crate::specs::Permitted::range_of))]
pub(crate) fn range_of(terms: &Terms, chosen: Chosen, references: References) -> Range
    ensures { result ≡ range_of (prices_of terms.now.table) terms.now.percentage chosen.rule chosen.queues references }
{
    Range {
        lowest: lowest_of(terms, chosen, references),
        highest: highest_of(terms, chosen, references),
        nine_fold: nine_fold_reference(
            chosen.queues,
            references.previous_close,
            references.nominal,
        ),
    }
}
