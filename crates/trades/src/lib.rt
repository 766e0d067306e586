// Off-System trades: six numbers, and an answer as a question's.
//
// The calls of this file are at 5 percent: `judge_trade_on` uses the table that a number names, `judge_trade` that of the calls that name none.
// Functions of `readings` and `verdicts` that are lent a table or terms hold for every well-formed table of prices below 2^31 and any percentage.
// Prices are whole mils.
//
// By `#[inline(always)]`, in all files here and on the limits in the crates `ranges` and `limits`, `judge_trade` is compiled with its table known,
// but for the check of bids and asks. By calls it took 1.4 times as many instructions.
#![tactic(auto)]

pub mod readings; // readings.rt: the reading of a trade's references: its range, or why it has none
pub mod verdicts; // verdicts.rt: the verdict on a trade price, and the answer

ghost use Rattle.std.specs.Prelude.{◌≡◌};
ghost use Rattle.ladder.specs.Named.{usual_ladder};
ghost use Rattle.limits.specs.Limits.{five_percent};
ghost use Rattle.limits.specs.Terms.{terms_on};
ghost use Rattle.trades.specs.Trades.{trade_references_of, trade_judged, trade_judged_by};

use judging::Answer;
use limits::terms::terms_on;
use questions::Reference;
use tables::USUAL_TABLE;

// The references of a trade: the previous close, and the lowest and highest bid and ask of the day so far.
#[derive(Clone, Copy, Debug, PartialEq, Eq)]
pub struct TradeReferences {
    pub previous_close: Reference,
    pub lowest_bid: Reference,
    pub lowest_ask: Reference,
    pub highest_bid: Reference,
    pub highest_ask: Reference,
}

// The answer to a trade on the table that a number names; 14, with 0 and 0, where it names none. After the trade price, 0 means missing.
#[tactic(auto, unfolding(crate::specs::Trades::trade_references_of))]
#[inline(always)]
pub fn judge_trade_on(
    table: u32,
    price: u32,
    previous_close: u32,
    lowest_bid: u32,
    lowest_ask: u32,
    highest_bid: u32,
    highest_ask: u32,
) -> Answer
    ensures { result ≡ trade_judged_by (terms_on table) price (trade_references_of previous_close lowest_bid lowest_ask highest_bid highest_ask) }
{
    let references = TradeReferences {
        previous_close: Reference::from(previous_close),
        lowest_bid: Reference::from(lowest_bid),
        lowest_ask: Reference::from(lowest_ask),
        highest_bid: Reference::from(highest_bid),
        highest_ask: Reference::from(highest_ask),
    };
    verdicts::judge_by(&terms_on(table), price, references)
}

// The answer to a trade.
#[tactic(auto, using(crate::proofs::Laws::usual))]
pub fn judge_trade(
    price: u32,
    previous_close: u32,
    lowest_bid: u32,
    lowest_ask: u32,
    highest_bid: u32,
    highest_ask: u32,
) -> Answer
    ensures { result ≡ trade_judged usual_ladder five_percent price (trade_references_of previous_close lowest_bid lowest_ask highest_bid highest_ask) }
{
    judge_trade_on(
        USUAL_TABLE,
        price,
        previous_close,
        lowest_bid,
        lowest_ask,
        highest_bid,
        highest_ask,
    )
}
