// The ladder prices next to a threshold, by one division with the spread of the band where it lands.
ghost use Rattle.std.specs.Prelude.{◌≡◌, ◌*◌, ◌<◌, ◌≤◌};
ghost use Rattle.ladder.specs.Layout.{prices_of};
ghost use Rattle.ladder.specs.Search.{first, latest, at_least, at_most};
ghost use Rattle.ladder.specs.Places.{first_price, last_price};
ghost use Rattle.ladder.specs.Arithmetic.{Between};

use super::numbers::product;
use super::table::SpreadTable;

// Two neighbouring ladder prices.
#[derive(Clone, Copy)]
pub(crate) struct Gap {
    pub below: u32,
    pub above: u32,
}

impl SpreadTable<'_> {
    // The neighbours between which a threshold inside the ladder lands: scale * below < y <= scale * above.
    #[inline(always)]
    fn between(&self, scale: u32, y: u64) -> Gap
        requires over_the_first { scale * first_price (prices_of self.now) < y }
        requires up_to_the_last { y ≤ scale * last_price (prices_of self.now) }
        ensures { Between scale y (prices_of self.now) result }
    {
        let index = self.sought(scale, y, self.bands.len()).unwrap();
        let band = self.band_at(index);
        let bottom = band.bottom;
        let spread = band.spread;
        let spreads = (y - 1 - product(scale, bottom)) / product(scale, spread);
        let below = bottom + (spreads as u32) * spread;
        Gap {
            below,
            above: below + spread,
        }
    }

    // The smallest ladder price q with scale * q at least y; none where there is none.
    #[inline(always)]
    pub fn at_least(&self, scale: u32, y: u64) -> Option<u32>
        ensures { result ≡ first (at_least scale y) (prices_of self.now) }
    {
        let first_price = self.first_price();
        if product(scale, self.last_price()) < y {
            return None;
        }
        if y <= product(scale, first_price) {
            return Some(first_price);
        }
        let gap = self.between(scale, y);
        Some(gap.above)
    }

    // The largest ladder price q with scale * q at most y; none where there is none.
    #[inline(always)]
    pub fn at_most(&self, scale: u32, y: u64) -> Option<u32>
        ensures { result ≡ latest (at_most scale y) (prices_of self.now) }
    {
        let last_price = self.last_price();
        if y < product(scale, self.first_price()) {
            return None;
        }
        if product(scale, last_price) <= y {
            return Some(last_price);
        }
        let gap = self.between(scale, y + 1);
        Some(gap.below)
    }
}
