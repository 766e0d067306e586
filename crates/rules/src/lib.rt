// The rule that the side, order type and queue code of a question choose together, and the checks that depend on it.
#![tactic(auto)]

mod checks; // checks.rt: references that disagree, special orders with no opposite queue

ghost use Rattle.std.specs.Prelude.{◌≡◌};
ghost use Rattle.rules.specs.Rules.{chosen, ask_of, bid_of};

use questions::code_names::{
    BOTH, BUY, BUY_ONLY, ENHANCED, LIMIT, NEITHER, OPENING, SELL, SELL_ONLY, SPECIAL,
};
use questions::{Codes, Reference, References};

// The queues, as the queue code tells of them, with the current or last bid and ask that the rules look at then.
#[derive(Clone, Copy, Debug, PartialEq, Eq)]
pub enum Queues {
    // No bid and no ask yet today.
    Opening,
    // The current bid, and the current ask.
    Both(Reference, Reference),
    // The current bid.
    BuyOnly(Reference),
    // The current ask.
    SellOnly(Reference),
    // The last bid, and the last ask.
    Neither(Reference, Reference),
}

// The rule for an order, by its side and type. With the queues, which the queue code chooses, it gives the permitted range.
#[derive(Clone, Copy, Debug, PartialEq, Eq)]
pub enum Rule {
    BuyLimit,
    BuyEnhanced,
    BuySpecial,
    SellLimit,
    SellEnhanced,
    SellSpecial,
}

// What the codes of a question choose.
#[derive(Clone, Copy, Debug, PartialEq, Eq)]
pub struct Chosen {
    pub rule: Rule,
    pub queues: Queues,
}

// The rule and the queues that the codes choose; none where no rule has these codes.
#[tactic(auto, unfolding(crate::specs::Rules::chosen))]
pub fn choose(codes: Codes, references: References) -> Option<Chosen>
    ensures { result ≡ chosen codes references }
{
    if codes.byte_3 != 0 {
        return None;
    }
    let queues = match codes.queue {
        OPENING => Queues::Opening,
        BOTH => Queues::Both(references.current_bid, references.current_ask),
        BUY_ONLY => Queues::BuyOnly(references.current_bid),
        SELL_ONLY => Queues::SellOnly(references.current_ask),
        NEITHER => Queues::Neither(references.last_bid, references.last_ask),
        0 | 6..=255 => return None,
    };
    let rule = match (codes.side, codes.order_type) {
        (BUY, LIMIT) => Rule::BuyLimit,
        (BUY, ENHANCED) => Rule::BuyEnhanced,
        (BUY, SPECIAL) => Rule::BuySpecial,
        (SELL, LIMIT) => Rule::SellLimit,
        (SELL, ENHANCED) => Rule::SellEnhanced,
        (SELL, SPECIAL) => Rule::SellSpecial,
        (0 | 3..=255, _) | (_, 0 | 4..=255) => return None,
    };
    Some(Chosen { rule, queues })
}

impl Queues {
    // The current ask, where there is a sell queue.
    pub fn ask(self) -> Reference
        ensures { result ≡ ask_of self }
    {
        match self {
            Queues::Both(_, ask) | Queues::SellOnly(ask) => ask,
            Queues::Opening | Queues::BuyOnly(_) | Queues::Neither(..) => Reference::Missing,
        }
    }

    // The current bid, where there is a buy queue.
    pub fn bid(self) -> Reference
        ensures { result ≡ bid_of self }
    {
        match self {
            Queues::Both(bid, _) | Queues::BuyOnly(bid) => bid,
            Queues::Opening | Queues::SellOnly(_) | Queues::Neither(..) => Reference::Missing,
        }
    }
}
