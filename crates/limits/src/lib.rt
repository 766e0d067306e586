// The limits of a reference: a percentage or so many spreads, whichever is further.
//
// Of each call there are two, both with 5 percent: `lower_limit_on` and so on use the table that a number names, and answer nothing where it names
// none; `lower_limit` and so on use the table of the calls that name none. `Terms` has the same calls as methods; their contracts hold for every
// well-formed table of prices below 2^31 and any percentage. Prices are whole mils.
#![tactic(auto)]

mod percent; // percent.rt: the percentage limits by themselves
mod limit; // limit.rt: the lower and the upper limit
pub mod terms; // terms.rt: what limits are worked out by: a spread table and a percentage

ghost use Rattle.std.specs.Prelude.{◌≡◌};
ghost use Rattle.ladder.specs.Named.{ladder_named, usual_ladder};
ghost use Rattle.limits.specs.Limits.{five_percent, percent_lower_found, percent_upper_found, lower_limit_found, upper_limit_found};

use tables::USUAL_TABLE;
use terms::terms_on;

// A percentage below and above a reference r: `lower` * r, and `upper` * r, against `scale` times a price.
#[derive(Clone, Copy, Debug, PartialEq, Eq)]
pub struct Percentage {
    pub scale: u32,
    pub lower: u32,
    pub upper: u32,
}

// The smallest ladder price no more than 5 percent below a reference; none from a reference outside the ends.
#[tactic(auto, using(crate::proofs::ByNumber::outside))]
pub fn five_percent_lower_on(table: u32, reference: u32) -> Option<u32>
    ensures { result ≡ percent_lower_found (ladder_named table) five_percent reference }
{
    terms_on(table).ok()?.percent_lower(reference)
}

// The same on the usual table.
pub fn five_percent_lower(reference: u32) -> Option<u32>
    ensures { result ≡ percent_lower_found usual_ladder five_percent reference }
{
    five_percent_lower_on(USUAL_TABLE, reference)
}

// The largest ladder price no more than 5 percent above a reference; none from a reference outside the ends.
#[tactic(auto, using(crate::proofs::ByNumber::outside))]
pub fn five_percent_upper_on(table: u32, reference: u32) -> Option<u32>
    ensures { result ≡ percent_upper_found (ladder_named table) five_percent reference }
{
    terms_on(table).ok()?.percent_upper(reference)
}

// The same on the usual table.
pub fn five_percent_upper(reference: u32) -> Option<u32>
    ensures { result ≡ percent_upper_found usual_ladder five_percent reference }
{
    five_percent_upper_on(USUAL_TABLE, reference)
}

// The lower limit of a reference; none from a reference outside the ends.
#[tactic(auto, using(crate::proofs::ByNumber::outside))]
pub fn lower_limit_on(table: u32, reference: u32) -> Option<u32>
    ensures { result ≡ lower_limit_found (ladder_named table) five_percent reference }
{
    terms_on(table).ok()?.lower_limit(reference)
}

// The same on the usual table.
pub fn lower_limit(reference: u32) -> Option<u32>
    ensures { result ≡ lower_limit_found usual_ladder five_percent reference }
{
    lower_limit_on(USUAL_TABLE, reference)
}

// The upper limit of a reference; none from a reference outside the ends.
#[tactic(auto, using(crate::proofs::ByNumber::outside))]
pub fn upper_limit_on(table: u32, reference: u32) -> Option<u32>
    ensures { result ≡ upper_limit_found (ladder_named table) five_percent reference }
{
    terms_on(table).ok()?.upper_limit(reference)
}

// The same on the usual table.
pub fn upper_limit(reference: u32) -> Option<u32>
    ensures { result ≡ upper_limit_found usual_ladder five_percent reference }
{
    upper_limit_on(USUAL_TABLE, reference)
}
