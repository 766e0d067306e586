// The price ladder of a spread table: places, spreads and rounding, by band arithmetic.
//
// Of each call there are two: `up_on` and so on use the table that a number names, and answer nothing where it names none; `up` and so on use the
// table of the calls that name none. A `SpreadTable` has the same calls as methods; their contracts hold for every table that is well formed, as
// each is by its type. Prices are whole mils.
#![tactic(auto)]

mod search; // search.rt: the band where a threshold lands, and that of a price
mod multiples; // multiples.rt: whether a number is a multiple of a spread, and what is left over one
mod turns; // turns.rt: one band of a walk
mod rise; // rise.rt: so many places up, from a price of a band
mod places; // places.rt: place to price, price to place
mod steps; // steps.rt: n spreads up and down
pub mod looked_up; // looked_up.rt: a price that is looked up once
mod nearest; // nearest.rt: the ladder prices next to a price
mod rounding; // rounding.rt: the ladder prices next to a threshold
mod ends; // ends.rt: the first and the last price, and what is outside them
pub mod numbers; // numbers.rt: products that do not wrap
pub mod table; // table.rt: spread tables
pub mod named; // named.rt: the tables that a number names

ghost use Rattle.std.specs.Prelude.{◌≡◌};
ghost use Rattle.tables.specs.Named.{table_named};
ghost use Rattle.ladder.specs.Named.{ladder_named, usual_ladder};
ghost use Rattle.ladder.specs.Search.{first, latest, at_least, at_most};
ghost use Rattle.ladder.specs.Places.{price_at, place_of};
ghost use Rattle.ladder.specs.Trying.{band_of};
ghost use Rattle.ladder.specs.Spreads.{spreads_up, spreads_down};

use named::table_of;
use tables::USUAL_TABLE;

// The price at a place; none above the last place. By `#[inline(always)]` the call below is compiled with its table known: a walk that
// reads each band from memory, and divides by the spread of each that it passes, took three times as long.
#[tactic(auto, using(crate::proofs::ByNumber::none), unfolding(crate::specs::Places::price_at))]
#[inline(always)]
pub fn price_at_on(table: u32, place: u32) -> Option<u32>
    ensures { result ≡ price_at place (ladder_named table) }
{
    table_of(table)?.price_at(place)
}

// The same on the usual table.
pub fn price_at(place: u32) -> Option<u32>
    ensures { result ≡ price_at place usual_ladder }
{
    price_at_on(USUAL_TABLE, place)
}

// The place of a price; none for a price off the ladder.
#[tactic(auto, using(crate::proofs::ByNumber::none), unfolding(crate::specs::Places::place_from))]
pub fn place_of_on(table: u32, price: u32) -> Option<u32>
    ensures { result ≡ place_of price (ladder_named table) }
{
    table_of(table)?.place_of(price)
}

// The same on the usual table.
pub fn place_of(price: u32) -> Option<u32>
    ensures { result ≡ place_of price usual_ladder }
{
    place_of_on(USUAL_TABLE, price)
}

// The band of a price, by its index, at most `allowed` bands tried; none where the price is in none of these.
#[tactic(auto, using(crate::proofs::ByNumber::no_band))]
pub fn band_of_on(table: u32, price: u32, allowed: u32) -> Option<u32>
    ensures { result ≡ band_of price allowed (table_named table) }
{
    let index = table_of(table)?.band_of(price, allowed as usize)?;
    Some(index as u32)
}

// The price n spreads up, halting at the last; none from a price outside the ends.
#[tactic(auto, using(crate::proofs::ByNumber::none), unfolding(crate::specs::Places::is_outside))]
pub fn up_on(table: u32, price: u32, n: u64) -> Option<u32>
    ensures { result ≡ spreads_up (ladder_named table) price n }
{
    table_of(table)?.up(price, n)
}

// The same on the usual table.
pub fn up(price: u32, n: u64) -> Option<u32>
    ensures { result ≡ spreads_up usual_ladder price n }
{
    up_on(USUAL_TABLE, price, n)
}

// The price n spreads down, halting at the first; none from a price outside the ends.
#[tactic(auto, using(crate::proofs::ByNumber::none), unfolding(crate::specs::Places::is_outside))]
pub fn down_on(table: u32, price: u32, n: u64) -> Option<u32>
    ensures { result ≡ spreads_down (ladder_named table) price n }
{
    table_of(table)?.down(price, n)
}

// The same on the usual table.
pub fn down(price: u32, n: u64) -> Option<u32>
    ensures { result ≡ spreads_down usual_ladder price n }
{
    down_on(USUAL_TABLE, price, n)
}

// The smallest ladder price q with scale * q at least y; none where there is none.
#[tactic(auto, using(crate::proofs::ByNumber::none), unfolding(crate::specs::Search::first))]
pub fn at_least_on(table: u32, scale: u32, y: u64) -> Option<u32>
    ensures { result ≡ first (at_least scale y) (ladder_named table) }
{
    table_of(table)?.at_least(scale, y)
}

// The same on the usual table.
pub fn at_least(scale: u32, y: u64) -> Option<u32>
    ensures { result ≡ first (at_least scale y) usual_ladder }
{
    at_least_on(USUAL_TABLE, scale, y)
}

// The largest ladder price q with scale * q at most y; none where there is none.
#[tactic(auto, using(crate::proofs::ByNumber::none), unfolding(crate::specs::Search::latest_after))]
pub fn at_most_on(table: u32, scale: u32, y: u64) -> Option<u32>
    ensures { result ≡ latest (at_most scale y) (ladder_named table) }
{
    table_of(table)?.at_most(scale, y)
}

// The same on the usual table.
pub fn at_most(scale: u32, y: u64) -> Option<u32>
    ensures { result ≡ latest (at_most scale y) usual_ladder }
{
    at_most_on(USUAL_TABLE, scale, y)
}
