// The ladder prices next to a price: itself, where it is one.
ghost use Rattle.std.specs.Prelude.{◌≡◌};
ghost use Rattle.ladder.specs.Layout.{prices_of};
ghost use Rattle.ladder.specs.Search.{first, latest, at_least, at_most};

use super::multiples::remainder;
use super::table::SpreadTable;

impl SpreadTable<'_> {
    // The smallest ladder price that is not below a price; none above the last.
    #[tactic(auto, using(crate::proofs::Tables::Nearest::rounded_up, crate::proofs::Tables::Nearest::up_to_the_first, crate::proofs::Tables::Nearest::over_the_last))]
    #[inline(always)]
    pub fn at_or_above(&self, price: u32) -> Option<u32>
        ensures { result ≡ first (at_least 1 price) (prices_of self.now) }
    {
        let first_price = self.first_price();
        if price <= first_price {
            return Some(first_price);
        }
        let found = self.lies(price)?;
        let under = found.band.top - price;
        Some(price + remainder(under, found.band.spread, found.inverse))
    }

    // The largest ladder price that is not above a price; none below the first.
    #[tactic(auto, using(crate::proofs::Tables::Nearest::rounded_down, crate::proofs::Tables::Nearest::from_the_last, crate::proofs::Tables::Nearest::under_the_first))]
    #[inline(always)]
    pub fn at_or_below(&self, price: u32) -> Option<u32>
        ensures { result ≡ latest (at_most 1 price) (prices_of self.now) }
    {
        let last_price = self.last_price();
        if last_price <= price {
            return Some(last_price);
        }
        let found = self.lies(price)?;
        let over = price - found.band.bottom;
        Some(price - remainder(over, found.band.spread, found.inverse))
    }
}
