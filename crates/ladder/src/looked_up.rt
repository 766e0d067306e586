// A price that is looked up on a table once, for all that is asked of it.
ghost use Rattle.std.specs.Prelude.{◌≡◌, ◌≤◌, length, is_none};
ghost use Rattle.std.specs.Option.{ForSome, option_map};
ghost use Rattle.facts.specs.Lists.{holds};
ghost use Rattle.ladder.specs.Layout.{prices_of};
ghost use Rattle.ladder.specs.Places.{is_outside};
ghost use Rattle.ladder.specs.Trying.{band_of};
ghost use Rattle.ladder.specs.Arithmetic.{LiesIn, in_one_band};

use super::search::Lies;
use super::table::SpreadTable;

// A price, and where it lies on the table: nowhere outside the ends.
#[derive(Clone, Copy)]
pub struct LookedUp<'a> {
    pub table: SpreadTable<'a>,
    pub price: u32,
    found: Option<Lies>,
    ghost index: { option_map (λ found. found.index) found ≡ band_of price (length table.bands.now) table.bands.now },
    ghost lies: { ForSome found (LiesIn table.bands.now price) },
    ghost missing: { is_none found ≡ is_outside price (prices_of table) },
}

impl<'a> SpreadTable<'a> {
    // Looks a price up.
    #[inline(always)]
    pub fn look_up(&self, price: u32) -> LookedUp<'a>
        ensures table { result.table ≡ self.now }
        ensures price { result.price ≡ price }
    {
        let found = self.lies(price);
        LookedUp {
            table: *self,
            price,
            found,
        }
    }
}

impl LookedUp<'_> {
    // Whether it is below the first price of the ladder, or above the last.
    #[inline(always)]
    pub fn is_outside(&self) -> bool
        ensures { result ≡ is_outside self.now.price (prices_of self.now.table) }
    {
        self.found.is_none()
    }

    // Whether it is on the ladder.
    #[inline(always)]
    pub fn is_on(&self) -> bool
        ensures { result ≡ holds self.now.price (prices_of self.now.table) }
    {
        match self.found {
            Some(found) => self.table.is_on(found, self.price),
            None => false,
        }
    }

    // Whether it is a ladder price, and so are a lower and a higher one, all three of one band.
    #[inline(always)]
    pub fn is_among(&self, low: u32, high: u32) -> bool
        requires low { low ≤ self.now.price }
        requires high { self.now.price ≤ high }
        ensures { result ≡ in_one_band low self.now.price high self.now.table.bands.now }
    {
        match self.found {
            Some(found) if found.band.bottom <= low && high <= found.band.top => {
                self.table.is_on(found, low)
                    & self.table.is_on(found, self.price)
                    & self.table.is_on(found, high)
            }
            _ => false,
        }
    }
}
