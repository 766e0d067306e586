// So many places up, from a price of a band.
ghost use Rattle.ladder.specs.Layout.{prices_of};
ghost use Rattle.ladder.specs.Arithmetic.{StandsIn, PlacesUp};

use super::table::SpreadTable;
use super::turns::{Turn, turn_in};

impl SpreadTable<'_> {
    // The price n places above a price of the band with this index; none above the last place.
    pub(crate) fn rise(&self, index: usize, price: u32, n: u64) -> Option<u32>
        requires { StandsIn self.now.bands.now index price }
        ensures { PlacesUp (prices_of self.now) price n result }
    {
        let mut at = price;
        let mut left = n;
        for band in &self.bands[index..] {
            match turn_in(left, band.spread, band.top - at) {
                Turn::Ends(mils) => {
                    return Some(at + mils);
                }
                Turn::Leaves(rest) => {
                    at = band.top;
                    left = rest;
                }
            }
        }
        None
    }
}
