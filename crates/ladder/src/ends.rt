// The ends of a table's ladder, and whether a price is outside them.
ghost use Rattle.std.specs.Prelude.{◌≡◌};
ghost use Rattle.ladder.specs.Layout.{prices_of};
ghost use Rattle.ladder.specs.Places.{first_price, last_price, is_outside};

use super::table::SpreadTable;

impl SpreadTable<'_> {
    // The first price of the ladder.
    pub fn first_price(&self) -> u32
        ensures { result ≡ first_price (prices_of self.now) }
    {
        self.bands[0].bottom
    }

    // The last price of the ladder.
    pub fn last_price(&self) -> u32
        ensures { result ≡ last_price (prices_of self.now) }
    {
        self.bands[self.bands.len() - 1].top
    }

    // Whether a price is below the first price of the ladder, or above the last.
    pub fn is_outside(&self, price: u32) -> bool
        ensures { result ≡ is_outside price (prices_of self.now) }
    {
        !(self.first_price()..=self.last_price()).contains(&price)
    }
}
