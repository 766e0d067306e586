// A day as plain numbers: the form in which C holds it. Any eleven numbers are a day.
#![tactic(auto)]

ghost use Rattle.std.specs.Prelude.{◌≡◌};
ghost use Rattle.daynumbers.specs.Numbers.{day_from, numbers_of_day, entered_numbers};

use daybook::{Day, Entered, Quotes, Traded};
use questions::Reference;

// A day as plain numbers, 0 where there is none.
#[repr(C)]
#[derive(Clone, Copy, Debug, PartialEq, Eq)]
pub struct DayNumbers {
    pub previous_close: u32,
    pub current_bid: u32,
    pub current_ask: u32,
    pub last_bid: u32,
    pub last_ask: u32,
    pub lowest_bid: u32,
    pub highest_bid: u32,
    pub lowest_ask: u32,
    pub highest_ask: u32,
    pub day_low: u32,
    pub day_high: u32,
}

// A number, and a day as plain numbers.
#[repr(C)]
#[derive(Clone, Copy, Debug, PartialEq, Eq)]
pub struct EnteredNumbers {
    pub number: u32,
    pub day: DayNumbers,
}

// The day that the numbers stand for.
impl From<DayNumbers> for Day {
    ghost from_gives = { λ numbers day. day ≡ day_from numbers };

    #[tactic(auto, unfolding(crate::specs::Numbers::day_from))]
    fn from(numbers: DayNumbers) -> Day {
        Day {
            previous_close: Reference::from(numbers.previous_close),
            bids: Quotes {
                current: Reference::from(numbers.current_bid),
                last: Reference::from(numbers.last_bid),
                lowest: Reference::from(numbers.lowest_bid),
                highest: Reference::from(numbers.highest_bid),
            },
            asks: Quotes {
                current: Reference::from(numbers.current_ask),
                last: Reference::from(numbers.last_ask),
                lowest: Reference::from(numbers.lowest_ask),
                highest: Reference::from(numbers.highest_ask),
            },
            traded: Traded {
                low: Reference::from(numbers.day_low),
                high: Reference::from(numbers.day_high),
            },
        }
    }
}

// The numbers of a day.
impl From<Day> for DayNumbers {
    ghost from_gives = { λ day numbers. numbers ≡ numbers_of_day day };

    #[tactic(auto, unfolding(crate::specs::Numbers::numbers_of_day))]
    fn from(day: Day) -> DayNumbers {
        DayNumbers {
            previous_close: u32::from(day.previous_close),
            current_bid: u32::from(day.bids.current),
            current_ask: u32::from(day.asks.current),
            last_bid: u32::from(day.bids.last),
            last_ask: u32::from(day.asks.last),
            lowest_bid: u32::from(day.bids.lowest),
            highest_bid: u32::from(day.bids.highest),
            lowest_ask: u32::from(day.asks.lowest),
            highest_ask: u32::from(day.asks.highest),
            day_low: u32::from(day.traded.low),
            day_high: u32::from(day.traded.high),
        }
    }
}

// The same with the number beside the day.
impl From<Entered> for EnteredNumbers {
    ghost from_gives = { λ entered numbers. numbers ≡ entered_numbers entered };

    fn from(entered: Entered) -> EnteredNumbers {
        EnteredNumbers {
            number: entered.number,
            day: DayNumbers::from(entered.day),
        }
    }
}
