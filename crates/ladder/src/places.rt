// Place to price and price to place, counted band by band.
ghost use Rattle.std.specs.Prelude.{◌≡◌, ◌<◌, length};
ghost use Rattle.facts.specs.Lists.{holds};
ghost use Rattle.ladder.specs.Layout.{prices_of};
ghost use Rattle.ladder.specs.Places.{price_at, place_of};
ghost use Rattle.ladder.specs.Arithmetic.{places_below};

use super::table::SpreadTable;

impl SpreadTable<'_> {
    // Whether a price is on the ladder.
    #[tactic(auto, using(crate::proofs::Tables::Stands::stands_held))]
    #[inline(always)]
    pub fn holds(&self, price: u32) -> bool
        ensures { result ≡ holds price (prices_of self.now) }
    {
        self.standing_of(price).is_some()
    }

    // The price at a place; none above the last place.
    #[inline(always)]
    pub fn price_at(&self, place: u32) -> Option<u32>
        ensures { result ≡ price_at place (prices_of self.now) }
    {
        self.rise(0, self.first_price(), u64::from(place))
    }

    // How many places lie below the band with this index.
    fn places_below(&self, index: usize) -> u32
        requires { index < length self.now.bands.now }
        ensures { result ≡ places_below index self.now.bands.now }
    {
        let mut places: u32 = 0;
        for band in &self.bands[..index] {
            let spreads = (band.top - band.bottom) / band.spread;
            places += spreads;
        }
        places
    }

    // The place of a price; none for a price off the ladder.
    pub fn place_of(&self, price: u32) -> Option<u32>
        ensures { result ≡ place_of price (prices_of self.now) }
    {
        let index = self.standing_of(price)?;
        let band = self.band_at(index);
        Some(self.places_below(index) + (price - band.bottom) / band.spread)
    }
}
