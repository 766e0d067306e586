// The C interface beside the batch: the other functions that include/hendovita.h declares. Each hands on to a call of the crates below,
// and none has a precondition. One whose name ends in `_on` uses the table that a number names, and finds nothing where it names none.
#![tactic(auto)]

mod results; // results.rt: a price, a place or a band, or none, as two numbers

ghost use Rattle.std.specs.Prelude.{◌≡◌};
ghost use Rattle.tables.specs.Named.{phase1, table_named};
ghost use Rattle.ladder.specs.Ladder.{ladder};
ghost use Rattle.ladder.specs.Named.{ladder_named, usual_ladder};
ghost use Rattle.ladder.specs.Places.{price_at, place_of};
ghost use Rattle.ladder.specs.Trying.{band_of};
ghost use Rattle.ladder.specs.Spreads.{spreads_up, spreads_down};
ghost use Rattle.limits.specs.Limits.{five_percent, percent_lower_found, percent_upper_found, lower_limit_found, upper_limit_found};
ghost use Rattle.questions.specs.Missing.{reference_of};
ghost use Rattle.limits.specs.Terms.{terms_on};
ghost use Rattle.preparing.specs.Prepared.{prepared, prepared_by};
ghost use Rattle.preparing.specs.Numbers.{prepared_numbers, range_from};
ghost use Rattle.judging.specs.Answers.{judged, judged_by, answer_on, prepared_judged_by};
ghost use Rattle.trades.specs.Trades.{trade_references_of, trade_judged, trade_judged_by};
ghost use Rattle.daybook.specs.Events.{event};
ghost use Rattle.daybook.specs.Days.{opened, entered};
ghost use Rattle.dayquestion.specs.Filling.{fill_number, filled};
ghost use Rattle.daynumbers.specs.Numbers.{day_from, entered_numbers};
ghost use Rattle.interface.specs.Results.{price_found, place_found, band_found};

use daybook::Day;
use daynumbers::{DayNumbers, EnteredNumbers};
use dayquestion::{Order, WrongLength};
use judging::Answer;
use preparing::PreparedNumbers;
use preparing::numbers::range_from;
use preparing::reasons::WRONG_LENGTH;
use questions::Reference;

// A price: `found` is 1, or 0 where there is none, and the price is then 0.
#[repr(C)]
#[derive(Clone, Copy)]
pub struct PriceFound {
    pub found: u32,
    pub price: u32,
}

// A place: `found` is 1, or 0 where there is none, and the place is then 0, which is a proper place where `found` is 1.
#[repr(C)]
#[derive(Clone, Copy)]
pub struct PlaceFound {
    pub found: u32,
    pub place: u32,
}

// The index of a band: `found` is 1, or 0 where there is none, and the index is then 0, which is a proper index where `found` is 1.
#[repr(C)]
#[derive(Clone, Copy)]
pub struct BandFound {
    pub found: u32,
    pub index: u32,
}

// The answer to one question; bytes of any other length get 1, with 0 and 0.
#[unsafe(no_mangle)]
pub extern "C" fn hendovita_judge_question(question: &[u8]) -> Answer
    ensures { result ≡ judged usual_ladder five_percent question.now }
{
    judging::judge(question)
}

// The same on the table that a number names; where it names none, after 1, 14 with 0 and 0.
#[unsafe(no_mangle)]
pub extern "C" fn hendovita_judge_question_on(table: u32, question: &[u8]) -> Answer
    ensures { result ≡ judged_by (terms_on table) question.now }
{
    judging::judge_on(table, question)
}

// The first part of a question, which does not look at its order price: 0 with the permitted range and the nine-fold reference, or 2 to 5
// or 15 with zeros; bytes of any other length get 1 with zeros.
#[unsafe(no_mangle)]
pub extern "C" fn hendovita_prepare(question: &[u8]) -> PreparedNumbers
    ensures { result ≡ prepared_numbers (prepared usual_ladder five_percent question.now) }
{
    PreparedNumbers::from(preparing::prepare(question))
}

// The same on the table that a number names; where it names none, after 1, 14 with zeros.
#[unsafe(no_mangle)]
pub extern "C" fn hendovita_prepare_on(table: u32, question: &[u8]) -> PreparedNumbers
    ensures { result ≡ prepared_numbers (prepared_by (terms_on table) question.now) }
{
    PreparedNumbers::from(preparing::prepare_on(table, question))
}

// The second part: the answer to a price against a range, by any three numbers; 0 is a missing nine-fold reference.
#[unsafe(no_mangle)]
pub extern "C" fn hendovita_judge_prepared(
    lowest: u32,
    highest: u32,
    nine_fold: u32,
    price: u32,
) -> Answer
    ensures { result ≡ answer_on usual_ladder (range_from lowest highest nine_fold) price }
{
    judging::judge_prepared(range_from(lowest, highest, nine_fold), price)
}

// The same on the table that a number names; where it names none, 14 with 0 and 0.
#[unsafe(no_mangle)]
pub extern "C" fn hendovita_judge_prepared_on(
    table: u32,
    lowest: u32,
    highest: u32,
    nine_fold: u32,
    price: u32,
) -> Answer
    ensures { result ≡ prepared_judged_by (terms_on table) (range_from lowest highest nine_fold) price }
{
    judging::judge_prepared_on(table, range_from(lowest, highest, nine_fold), price)
}

// The answer to an off-System trade. After the trade price, 0 means missing.
#[unsafe(no_mangle)]
pub extern "C" fn hendovita_judge_trade(
    price: u32,
    previous_close: u32,
    lowest_bid: u32,
    lowest_ask: u32,
    highest_bid: u32,
    highest_ask: u32,
) -> Answer
    ensures { result ≡ trade_judged usual_ladder five_percent price (trade_references_of previous_close lowest_bid lowest_ask highest_bid highest_ask) }
{
    trades::judge_trade(
        price,
        previous_close,
        lowest_bid,
        lowest_ask,
        highest_bid,
        highest_ask,
    )
}

// The same on the table that a number names; where it names none, 14 with 0 and 0.
#[unsafe(no_mangle)]
pub extern "C" fn hendovita_judge_trade_on(
    table: u32,
    price: u32,
    previous_close: u32,
    lowest_bid: u32,
    lowest_ask: u32,
    highest_bid: u32,
    highest_ask: u32,
) -> Answer
    ensures { result ≡ trade_judged_by (terms_on table) price (trade_references_of previous_close lowest_bid lowest_ask highest_bid highest_ask) }
{
    trades::judge_trade_on(
        table,
        price,
        previous_close,
        lowest_bid,
        lowest_ask,
        highest_bid,
        highest_ask,
    )
}

// The price n spreads up; none from a price outside the ladder's ends.
#[unsafe(no_mangle)]
pub extern "C" fn hendovita_up(price: u32, n: u64) -> PriceFound
    ensures { result ≡ price_found (spreads_up usual_ladder price n) }
{
    PriceFound::from(ladder::up(price, n))
}

// The same on the table that a number names; none also where it names none.
#[unsafe(no_mangle)]
pub extern "C" fn hendovita_up_on(table: u32, price: u32, n: u64) -> PriceFound
    ensures { result ≡ price_found (spreads_up (ladder_named table) price n) }
{
    PriceFound::from(ladder::up_on(table, price, n))
}

// The price n spreads down; none from a price outside the ladder's ends.
#[unsafe(no_mangle)]
pub extern "C" fn hendovita_down(price: u32, n: u64) -> PriceFound
    ensures { result ≡ price_found (spreads_down usual_ladder price n) }
{
    PriceFound::from(ladder::down(price, n))
}

// The same on the table that a number names; none also where it names none.
#[unsafe(no_mangle)]
pub extern "C" fn hendovita_down_on(table: u32, price: u32, n: u64) -> PriceFound
    ensures { result ≡ price_found (spreads_down (ladder_named table) price n) }
{
    PriceFound::from(ladder::down_on(table, price, n))
}

// The price at a place; none above the last place.
#[unsafe(no_mangle)]
pub extern "C" fn hendovita_price_at(place: u32) -> PriceFound
    ensures { result ≡ price_found (price_at place usual_ladder) }
{
    PriceFound::from(ladder::price_at(place))
}

// The same on the table that a number names; none also where it names none.
#[unsafe(no_mangle)]
pub extern "C" fn hendovita_price_at_on(table: u32, place: u32) -> PriceFound
    ensures { result ≡ price_found (price_at place (ladder_named table)) }
{
    PriceFound::from(ladder::price_at_on(table, place))
}

// The place of a price; none off the ladder.
#[unsafe(no_mangle)]
pub extern "C" fn hendovita_place_of(price: u32) -> PlaceFound
    ensures { result ≡ place_found (place_of price usual_ladder) }
{
    PlaceFound::from(ladder::place_of(price))
}

// The same on the table that a number names; none also where it names none.
#[unsafe(no_mangle)]
pub extern "C" fn hendovita_place_of_on(table: u32, price: u32) -> PlaceFound
    ensures { result ≡ place_found (place_of price (ladder_named table)) }
{
    PlaceFound::from(ladder::place_of_on(table, price))
}

// The band of a price on the table that a number names, at most `allowed` bands tried; none also where it names none.
#[unsafe(no_mangle)]
pub extern "C" fn hendovita_band_of_on(table: u32, price: u32, allowed: u32) -> BandFound
    ensures { result ≡ band_found (band_of price allowed (table_named table)) }
{
    BandFound::from(ladder::band_of_on(table, price, allowed))
}

// The lower limit of a reference; none outside the ladder's ends.
#[unsafe(no_mangle)]
pub extern "C" fn hendovita_lower_limit(reference: u32) -> PriceFound
    ensures { result ≡ price_found (lower_limit_found usual_ladder five_percent reference) }
{
    PriceFound::from(limits::lower_limit(reference))
}

// The same on the table that a number names; none also where it names none.
#[unsafe(no_mangle)]
pub extern "C" fn hendovita_lower_limit_on(table: u32, reference: u32) -> PriceFound
    ensures { result ≡ price_found (lower_limit_found (ladder_named table) five_percent reference) }
{
    PriceFound::from(limits::lower_limit_on(table, reference))
}

// The upper limit of a reference; none outside the ladder's ends.
#[unsafe(no_mangle)]
pub extern "C" fn hendovita_upper_limit(reference: u32) -> PriceFound
    ensures { result ≡ price_found (upper_limit_found usual_ladder five_percent reference) }
{
    PriceFound::from(limits::upper_limit(reference))
}

// The same on the table that a number names; none also where it names none.
#[unsafe(no_mangle)]
pub extern "C" fn hendovita_upper_limit_on(table: u32, reference: u32) -> PriceFound
    ensures { result ≡ price_found (upper_limit_found (ladder_named table) five_percent reference) }
{
    PriceFound::from(limits::upper_limit_on(table, reference))
}

// The lower 5 percent limit of a reference, before spreads are looked at; none outside the ladder's ends.
#[unsafe(no_mangle)]
pub extern "C" fn hendovita_five_percent_lower(reference: u32) -> PriceFound
    ensures { result ≡ price_found (percent_lower_found usual_ladder five_percent reference) }
{
    PriceFound::from(limits::five_percent_lower(reference))
}

// The same on the table that a number names; none also where it names none.
#[unsafe(no_mangle)]
pub extern "C" fn hendovita_five_percent_lower_on(table: u32, reference: u32) -> PriceFound
    ensures { result ≡ price_found (percent_lower_found (ladder_named table) five_percent reference) }
{
    PriceFound::from(limits::five_percent_lower_on(table, reference))
}

// The upper 5 percent limit of a reference, before spreads are looked at; none outside the ladder's ends.
#[unsafe(no_mangle)]
pub extern "C" fn hendovita_five_percent_upper(reference: u32) -> PriceFound
    ensures { result ≡ price_found (percent_upper_found usual_ladder five_percent reference) }
{
    PriceFound::from(limits::five_percent_upper(reference))
}

// The same on the table that a number names; none also where it names none.
#[unsafe(no_mangle)]
pub extern "C" fn hendovita_five_percent_upper_on(table: u32, reference: u32) -> PriceFound
    ensures { result ≡ price_found (percent_upper_found (ladder_named table) five_percent reference) }
{
    PriceFound::from(limits::five_percent_upper_on(table, reference))
}

// A fresh day with this previous close; 0 is none. A close outside the ladder's ends gets 12, and the day has none.
#[unsafe(no_mangle)]
pub extern "C" fn hendovita_open_day(previous_close: u32) -> EnteredNumbers
    ensures { result ≡ entered_numbers (opened (ladder phase1) (reference_of previous_close)) }
{
    EnteredNumbers::from(Day::fresh(Reference::from(previous_close)))
}

// The day after an event, with 0; or the day as it was, with 11, 12 or 13. The day may be any numbers.
#[unsafe(no_mangle)]
pub extern "C" fn hendovita_enter_event(day: DayNumbers, kind: u32, price: u32) -> EnteredNumbers
    ensures { result ≡ entered_numbers (entered (ladder phase1) (day_from day) (event kind price)) }
{
    EnteredNumbers::from(Day::from(day).enter(kind, price))
}

// Writes the question of an order, filled from the day. A buffer that has not as many bytes as a question gets 1, and keeps every byte.
#[unsafe(no_mangle)]
pub extern "C" fn hendovita_fill_question(
    day: DayNumbers,
    side: u8,
    order_type: u8,
    price: u32,
    nominal: u32,
    security_code: u32,
    question: &mut [u8],
) -> u32
    ensures number { result ≡ fill_number question.old }
    ensures question { question.new ≡ filled (day_from day) (record { side = side; order_type = order_type; price = price; nominal = nominal; security_code = security_code }) question.old }
{
    let order = Order {
        side,
        order_type,
        price,
        nominal,
        security_code,
    };
    match dayquestion::fill(Day::from(day), order, question) {
        Ok(()) => 0,
        Err(WrongLength) => WRONG_LENGTH,
    }
}
