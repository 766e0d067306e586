// The day book of one security: events in, and the day that they leave.
//
// A day is a struct by value. It keeps the references that questions and off-System trades ask for, so that nobody fills them in by hand: the
// crate `dayquestion` fills a question from it, `daynumbers` has it as plain numbers. Prices are whole mils; the ladder is that of Phase 1.
#![tactic(auto)]

mod acceptance; // acceptance.rt: the tests that turn a close or an event away
mod keeping; // keeping.rt: what an event makes of the prices that are kept

ghost use Rattle.std.specs.Prelude.{◌≡◌};
ghost use Rattle.tables.specs.Named.{phase1};
ghost use Rattle.ladder.specs.Ladder.{ladder};
ghost use Rattle.daybook.specs.Events.{event, best_bid, best_ask, buy_queue_empty, sell_queue_empty, system_trade};
ghost use Rattle.daybook.specs.Accepted.{told_number};
ghost use Rattle.daybook.specs.Days.{opened, entered};

use questions::Reference;

// What is kept of the bids, or of the asks: the current one, which is missing where the queue is empty; the last one, which is the current
// one where there is one; the lowest and the highest so far.
#[derive(Clone, Copy, Debug, Default, PartialEq, Eq)]
pub struct Quotes {
    pub current: Reference,
    pub last: Reference,
    pub lowest: Reference,
    pub highest: Reference,
}

// The lowest and the highest price of the System trades so far.
#[derive(Clone, Copy, Debug, Default, PartialEq, Eq)]
pub struct Traded {
    pub low: Reference,
    pub high: Reference,
}

// A day of one security.
#[derive(Clone, Copy, Debug, Default, PartialEq, Eq)]
pub struct Day {
    pub previous_close: Reference,
    pub bids: Quotes,
    pub asks: Quotes,
    pub traded: Traded,
}

// A number, and the day from now on: 0, or why the event or the close was turned away.
#[derive(Clone, Copy, Debug, PartialEq, Eq)]
pub struct Entered {
    pub number: u32,
    pub day: Day,
}

// What an event or a close is told, by its number: 0, or why it is turned away.
#[derive(Clone, Copy, Debug, PartialEq, Eq)]
enum Told {
    Accepted = 0,
    // An unknown kind, or a price with an emptied queue.
    UnknownEvent = 11,
    // A price off the ladder, or a close outside its ends.
    OffLadder = 12,
    // A bid not below the current ask, or an ask not above the current bid.
    QuotesCross = 13,
}

impl Day {
    // The day as it is, beside the number of what is told.
    fn told(self, told: Told) -> Entered
        ensures { result ≡ record { number = told_number told; day = self } }
    {
        Entered {
            number: told as u32,
            day: self,
        }
    }

    // A fresh day. A previous close outside the ladder's ends gets 12, and the day then has none.
    #[tactic(auto, unfolding(crate::specs::Days::opened))]
    pub fn fresh(previous_close: Reference) -> Entered
        ensures { result ≡ opened (ladder phase1) previous_close }
    {
        if acceptance::lies_outside(previous_close) {
            let day = keeping::fresh_day(Reference::Missing);
            return day.told(Told::OffLadder);
        }
        let day = keeping::fresh_day(previous_close);
        day.told(Told::Accepted)
    }

    // 1: the best bid is now this price.
    #[tactic(auto, unfolding(crate::specs::Accepted::event_number, crate::specs::Days::entered))]
    pub fn best_bid(mut self, price: u32) -> Entered
        ensures { result ≡ entered (ladder phase1) self (event best_bid price) }
    {
        if !acceptance::is_on_ladder(price) {
            return self.told(Told::OffLadder);
        }
        if acceptance::do_meet(Reference::Price(price), self.asks.current) {
            return self.told(Told::QuotesCross);
        }
        self.bids = self.bids.quoted(price);
        self.told(Told::Accepted)
    }

    // 2: the best ask is now this price.
    #[tactic(auto, unfolding(crate::specs::Accepted::event_number, crate::specs::Days::entered))]
    pub fn best_ask(mut self, price: u32) -> Entered
        ensures { result ≡ entered (ladder phase1) self (event best_ask price) }
    {
        if !acceptance::is_on_ladder(price) {
            return self.told(Told::OffLadder);
        }
        if acceptance::do_meet(self.bids.current, Reference::Price(price)) {
            return self.told(Told::QuotesCross);
        }
        self.asks = self.asks.quoted(price);
        self.told(Told::Accepted)
    }

    // 3: the buy queue is empty. An empty one stays as it is.
    #[tactic(auto, unfolding(crate::specs::Accepted::event_number, crate::specs::Days::entered))]
    pub fn buy_queue_empty(mut self) -> Entered
        ensures { result ≡ entered (ladder phase1) self (event buy_queue_empty 0) }
    {
        self.bids = self.bids.emptied();
        self.told(Told::Accepted)
    }

    // 4: the sell queue is empty.
    #[tactic(auto, unfolding(crate::specs::Accepted::event_number, crate::specs::Days::entered))]
    pub fn sell_queue_empty(mut self) -> Entered
        ensures { result ≡ entered (ladder phase1) self (event sell_queue_empty 0) }
    {
        self.asks = self.asks.emptied();
        self.told(Told::Accepted)
    }

    // 5: a System trade at this price. Bids and asks play no part in it.
    #[tactic(auto, unfolding(crate::specs::Accepted::event_number, crate::specs::Days::entered))]
    pub fn system_trade(mut self, price: u32) -> Entered
        ensures { result ≡ entered (ladder phase1) self (event system_trade price) }
    {
        if !acceptance::is_on_ladder(price) {
            return self.told(Told::OffLadder);
        }
        self.traded = self.traded.traded_at(price);
        self.told(Told::Accepted)
    }

    // An event by its kind, 1 to 5. Kinds 3 and 4 come with price 0.
    #[tactic(auto, unfolding(crate::specs::Accepted::event_number, crate::specs::Days::entered))]
    pub fn enter(self, kind: u32, price: u32) -> Entered
        ensures { result ≡ entered (ladder phase1) self (event kind price) }
    {
        match kind {
            1 => self.best_bid(price),
            2 => self.best_ask(price),
            3 if price == 0 => self.buy_queue_empty(),
            4 if price == 0 => self.sell_queue_empty(),
            5 => self.system_trade(price),
            0 | 3 | 4 | 6..=u32::MAX => self.told(Told::UnknownEvent),
        }
    }
}
