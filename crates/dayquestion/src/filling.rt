// The queue code and the references of a day, for a question.
ghost use Rattle.std.specs.Prelude.{◌≡◌};
ghost use Rattle.dayquestion.specs.Filling.{queue_code, queue_code_of, references_from};

use daybook::Day;
use questions::code_names::{BOTH, BUY_ONLY, NEITHER, OPENING, SELL_ONLY};
use questions::{Reference, References};

// The queue code, by whether there was a bid or an ask today, and whether there is a current bid, and a current ask.
fn queue_code(any_today: bool, bid: bool, ask: bool) -> u8
    ensures { result ≡ queue_code any_today bid ask }
{
    match (any_today, bid, ask) {
        (false, _, _) => OPENING,
        (true, true, true) => BOTH,
        (true, true, false) => BUY_ONLY,
        (true, false, true) => SELL_ONLY,
        (true, false, false) => NEITHER,
    }
}

// The queue code of a day.
pub(crate) fn queue_code_of(day: Day) -> u8
    ensures { result ≡ queue_code_of day }
{
    queue_code(
        day.bids.last.is_present() | day.asks.last.is_present(),
        day.bids.current.is_present(),
        day.asks.current.is_present(),
    )
}

// The references: all but the nominal price are the day's.
pub(crate) fn references_from(day: Day, nominal: u32) -> References
    ensures { result ≡ references_from day nominal }
{
    References {
        current_bid: day.bids.current,
        current_ask: day.asks.current,
        last_bid: day.bids.last,
        last_ask: day.asks.last,
        previous_close: day.previous_close,
        day_low: day.traded.low,
        day_high: day.traded.high,
        nominal: Reference::from(nominal),
    }
}
