// What an accepted event makes of the prices that are kept.
ghost use Rattle.std.specs.Prelude.{◌≡◌};
ghost use Rattle.daybook.specs.Days.{fresh_day, quoted, emptied, traded_at};

use super::{Day, Quotes, Traded};
use questions::Reference;

// A day on which nothing has happened.
#[tactic(auto, unfolding(crate::specs::Kept::current_of, crate::specs::Kept::last_of, crate::specs::Kept::lowest_of, crate::specs::Kept::highest_of))]
pub(crate) fn fresh_day(previous_close: Reference) -> Day
    ensures { result ≡ fresh_day previous_close }
{
    Day {
        previous_close,
        ..Day::default()
    }
}

impl Quotes {
    // The quotes after an event gives the best price of the queue.
    pub(crate) fn quoted(self, price: u32) -> Quotes
        ensures { result ≡ quoted price self }
    {
        let best = Reference::Price(price);
        Quotes {
            current: best,
            last: best,
            lowest: best.least(self.lowest),
            highest: best.greatest(self.highest),
        }
    }

    // The quotes after an event says that the queue is empty.
    pub(crate) fn emptied(self) -> Quotes
        ensures { result ≡ emptied self }
    {
        Quotes {
            current: Reference::Missing,
            ..self
        }
    }
}

impl Traded {
    // The traded prices after a System trade.
    pub(crate) fn traded_at(self, price: u32) -> Traded
        ensures { result ≡ traded_at price self }
    {
        let traded = Reference::Price(price);
        Traded {
            low: traded.least(self.low),
            high: traded.greatest(self.high),
        }
    }
}
