// n spreads up and down. A walk takes at once as many spreads as the band still has that way, and carries the rest into the next band.
// A walk is among ladder prices only. From a price between two of them it starts at the one behind: its first spread ends at the one ahead,
// where the first spread from the price itself ends.
ghost use Rattle.std.specs.Prelude.{◌≡◌};
ghost use Rattle.ladder.specs.Layout.{prices_of};
ghost use Rattle.ladder.specs.Arithmetic.{StandsIn};
ghost use Rattle.ladder.specs.Spreads.{times, spread_down, spreads_up, spreads_down};

use super::multiples::remainder;
use super::table::SpreadTable;
use super::turns::{Turn, turn_in};

impl SpreadTable<'_> {
    // The price n spreads below a ladder price of the band with this index.
    fn walk_down(&self, index: usize, price: u32, n: u64) -> u32
        requires { StandsIn self.now.bands.now index price }
        ensures { result ≡ times n (spread_down (prices_of self.now)) price }
    {
        let mut at = price;
        let mut left = n;
        for band in self.bands[0..index + 1].iter().rev() {
            match turn_in(left, band.spread, at - band.bottom) {
                Turn::Ends(mils) => {
                    return at - mils;
                }
                Turn::Leaves(rest) => {
                    at = band.bottom;
                    left = rest;
                }
            }
        }
        at
    }

    // The price n spreads up, halting at the last; none from a price outside the ends.
    #[inline(always)]
    pub fn up(&self, price: u32, n: u64) -> Option<u32>
        ensures { result ≡ spreads_up (prices_of self.now) price n }
    {
        let found = self.lies(price)?;
        if n == 0 {
            return Some(price);
        }
        let over = price - found.band.bottom;
        let behind = price - remainder(over, found.band.spread, found.inverse);
        Some(
            self.rise(found.index, behind, n)
                .unwrap_or(self.last_price()),
        )
    }

    // The price n spreads down, halting at the first; none from a price outside the ends.
    #[inline(always)]
    pub fn down(&self, price: u32, n: u64) -> Option<u32>
        ensures { result ≡ spreads_down (prices_of self.now) price n }
    {
        let found = self.lies(price)?;
        if n == 0 {
            return Some(price);
        }
        let under = found.band.top - price;
        let behind = price + remainder(under, found.band.spread, found.inverse);
        Some(self.walk_down(found.index, behind, n))
    }
}
