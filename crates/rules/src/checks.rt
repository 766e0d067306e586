// Check 4, references in disagreement with the queues or with each other; and check 5, no opposite queue for a special order.
ghost use Rattle.std.specs.Prelude.{◌≡◌};
ghost use Rattle.rules.specs.Checks.{buy_queue, sell_queue, locked_or_crossed, quoted_before, disagree, unopposed};

use super::{Chosen, Queues, Rule};
use questions::{Reference, References, checks};

impl Queues {
    // Whether there is a buy queue.
    fn has_buy(self) -> bool
        ensures { result ≡ buy_queue self }
    {
        matches!(self, Queues::Both(..) | Queues::BuyOnly(_))
    }

    // Whether there is a sell queue.
    fn has_sell(self) -> bool
        ensures { result ≡ sell_queue self }
    {
        matches!(self, Queues::Both(..) | Queues::SellOnly(_))
    }

    // With both queues: whether the bid is not below the ask.
    fn is_locked_or_crossed(self) -> bool
        ensures { result ≡ locked_or_crossed self }
    {
        matches!(self, Queues::Both(bid, ask) if !bid.is_below(ask))
    }

    // At the opening: whether there was a bid or an ask before.
    fn is_quoted_before(self, last_bid: Reference, last_ask: Reference) -> bool
        ensures { result ≡ quoted_before self last_bid last_ask }
    {
        matches!(self, Queues::Opening) & (last_bid.is_present() | last_ask.is_present())
    }

    // Whether the references disagree with the queues, or with each other.
    #[tactic(auto, unfolding(crate::specs::Checks::disagree))]
    pub fn disagree(self, references: References) -> bool
        ensures { result ≡ disagree self references }
    {
        (self.has_buy() != references.current_bid.is_present())
            | (self.has_sell() != references.current_ask.is_present())
            | self.is_locked_or_crossed()
            | self.is_quoted_before(references.last_bid, references.last_ask)
            | checks::is_bad_pair(references.day_low, references.day_high)
    }
}

impl Chosen {
    // Whether a special order has no opposite queue.
    pub fn is_unopposed(self) -> bool
        ensures { result ≡ unopposed self.rule self.queues }
    {
        match self.rule {
            Rule::BuySpecial => !self.queues.has_sell(),
            Rule::SellSpecial => !self.queues.has_buy(),
            Rule::BuyLimit | Rule::BuyEnhanced | Rule::SellLimit | Rule::SellEnhanced => false,
        }
    }
}
