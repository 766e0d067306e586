// The two limits of a reference, and nine spreads from it. Each is missing where the reference is missing, and from a price outside
// the ladder's ends too, which check 3 refuses before. By `#[inline(always)]` the limits are compiled with what a caller knows of its table.
ghost use Rattle.std.specs.Prelude.{◌≡◌};
ghost use Rattle.ladder.specs.Layout.{prices_of};
ghost use Rattle.limits.specs.Limits.{lower_limit_found, upper_limit_found};
ghost use Rattle.ranges.specs.Bounds.{from_reference, enhanced_above, enhanced_below};

use ladder::table::SpreadTable;
use limits::terms::Terms;
use questions::Reference;

// How many spreads an enhanced limit order may go beyond the opposite queue.
const ENHANCED_SPREADS: u64 = 9;

// The lower limit of a reference.
#[inline(always)]
pub fn lower_limit(terms: &Terms, reference: Reference) -> Reference
    ensures { result ≡ from_reference (lower_limit_found (prices_of terms.now.table) terms.now.percentage) reference }
{
    let Reference::Price(price) = reference else {
        return Reference::Missing;
    };
    Reference::from(terms.lower_limit(price))
}

// The upper limit of a reference.
#[inline(always)]
pub fn upper_limit(terms: &Terms, reference: Reference) -> Reference
    ensures { result ≡ from_reference (upper_limit_found (prices_of terms.now.table) terms.now.percentage) reference }
{
    let Reference::Price(price) = reference else {
        return Reference::Missing;
    };
    Reference::from(terms.upper_limit(price))
}

// As far above a reference as an enhanced limit buy may go.
pub(crate) fn enhanced_above(table: &SpreadTable, reference: Reference) -> Reference
    ensures { result ≡ enhanced_above (prices_of table.now) reference }
{
    let Reference::Price(price) = reference else {
        return Reference::Missing;
    };
    Reference::from(table.up(price, ENHANCED_SPREADS))
}

// As far below a reference as an enhanced limit sell may go.
pub(crate) fn enhanced_below(table: &SpreadTable, reference: Reference) -> Reference
    ensures { result ≡ enhanced_below (prices_of table.now) reference }
{
    let Reference::Price(price) = reference else {
        return Reference::Missing;
    };
    Reference::from(table.down(price, ENHANCED_SPREADS))
}
