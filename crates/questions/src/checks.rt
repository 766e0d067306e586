// Check 15, a bad security code; check 3, a reference off the ladder, or a close or nominal outside its ends; and pairs of a low and a high,
// which check 4 looks at.
ghost use Rattle.std.specs.Prelude.{◌≡◌};
ghost use Rattle.std.specs.List.{list_any};
ghost use Rattle.ladder.specs.Layout.{prices_of};
ghost use Rattle.questions.specs.Checks.{bad_security_code, is_off, lies_outside, any_off, bad_pair};

use super::{Reference, References};
use ladder::table::SpreadTable;

// The last security code.
const LAST_SECURITY_CODE: u32 = 99999;

// Whether a number is no security code, from 1 to the last.
pub fn is_bad_security_code(code: u32) -> bool
    ensures { result ≡ bad_security_code code }
{
    (code < 1) | (LAST_SECURITY_CODE < code)
}

impl Reference {
    // Whether a reference is present, but no ladder price.
    pub fn is_off(self, table: &SpreadTable) -> bool
        ensures { result ≡ is_off (prices_of table.now) self }
    {
        match self {
            Reference::Missing => false,
            Reference::Price(price) => !table.holds(price),
        }
    }

    // Whether a reference is present, but outside the ladder's ends.
    pub fn lies_outside(self, table: &SpreadTable) -> bool
        ensures { result ≡ lies_outside (prices_of table.now) self }
    {
        match self {
            Reference::Missing => false,
            Reference::Price(price) => table.is_outside(price),
        }
    }
}

// Whether any of some references is off the ladder.
pub fn any_off(references: &[Reference], table: &SpreadTable) -> bool
    ensures { result ≡ list_any (is_off (prices_of table.now)) references.now }
{
    references.iter().any(|reference| reference.is_off(table))
}

impl References {
    // Whether one is bad: one of six that are to be ladder prices, or previous close or nominal outside the ends.
    #[tactic(auto, unfolding(crate::specs::Checks::any_off))]
    pub fn any_off(self, table: &SpreadTable) -> bool
        ensures { result ≡ any_off (prices_of table.now) self }
    {
        let ladder_prices = [
            self.current_bid,
            self.current_ask,
            self.last_bid,
            self.last_ask,
            self.day_low,
            self.day_high,
        ];
        any_off(&ladder_prices, table)
            | self.previous_close.lies_outside(table)
            | self.nominal.lies_outside(table)
    }
}

// Whether a low is given without a high, or the reverse, or is above it.
pub fn is_bad_pair(low: Reference, high: Reference) -> bool
    ensures { result ≡ bad_pair low high }
{
    (low.is_present() != high.is_present()) | high.is_below(low)
}
