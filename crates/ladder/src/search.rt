// The one search for a band: which band holds a threshold, where a price lies, and whether it stands on the ladder there. A price is a threshold
// over 1. By `#[inline(always)]`, here and in the files that search, a judge and its searches compile to one function; `#[cold]` keeps the search
// band by band out of it.
ghost use Rattle.std.specs.Prelude.{◌≡◌, ◌≤◌, ◌<◌, length, get_or, IfSome, is_none};
ghost use Rattle.std.specs.List.{find};
ghost use Rattle.std.specs.Option.{option_map};
ghost use Rattle.facts.specs.Lists.{holds};
ghost use Rattle.tables.specs.Bands.{no_band};
ghost use Rattle.ladder.specs.Trying.{indexes, is_over, lands, sought, band_of};
ghost use Rattle.tables.specs.Inverses.{inverse_of};
ghost use Rattle.ladder.specs.Layout.{prices_of};
ghost use Rattle.ladder.specs.Places.{is_outside};
ghost use Rattle.ladder.specs.Arithmetic.{count_below, LiesIn, standing_of};

use super::multiples::is_multiple;
use super::numbers::product;
use super::table::SpreadTable;
use tables::Band;

// Where a price lies: a band of the table, with its index, and the inverse of its spread.
#[derive(Clone, Copy)]
pub(crate) struct Lies {
    pub index: usize,
    pub band: Band,
    pub inverse: u32,
}

// How many bands end below y / scale.
fn count_below(bands: &[Band], scale: u32, y: u64) -> usize
    ensures { result ≡ count_below scale y bands.now }
{
    let mut below = 0;
    for band in bands {
        below += usize::from(product(scale, band.top) < y);
    }
    below
}

// Whether y lies over the bottom of band k. On the first bottom it counts as over it.
fn is_over(bottom: u64, y: u64, k: usize) -> bool
    ensures { result ≡ is_over bottom y k }
{
    bottom < y || k == 0 && bottom == y
}

impl SpreadTable<'_> {
    // Band k of the table.
    pub(crate) fn band_at(&self, k: usize) -> Band
        requires { k < length self.now.bands.now }
        ensures { result ≡ get_or self.now.bands.now k no_band }
    {
        self.bands[k]
    }

    // The inverse of the spread of band k.
    fn inverse_at(&self, k: usize) -> u32
        requires { k < length self.now.bands.now }
        ensures { result ≡ inverse_of (get_or self.now.bands.now k no_band).spread }
    {
        self.inverses[k]
    }

    // Whether band k holds y / scale.
    fn lands(&self, scale: u32, y: u64, k: usize) -> bool
        ensures { result ≡ lands scale y self.now.bands.now k }
    {
        match self.bands.get(k) {
            Some(band) => {
                is_over(product(scale, band.bottom), y, k) && y <= product(scale, band.top)
            }
            None => false,
        }
    }

    // The band that holds y / scale, at most `allowed` bands tried, one after the other.
    #[cold]
    #[inline(never)]
    fn sought_in_order(&self, scale: u32, y: u64, allowed: usize) -> Option<usize>
        ensures { result ≡ sought scale y allowed self.now.bands.now }
    {
        let count = self.bands.len();
        let order = (2..5).chain((0..2).chain(5..count));
        order
            .filter(|k| *k < count)
            .take(allowed)
            .find(|k| self.lands(scale, y, *k))
    }

    // The band that holds y / scale, among those from the first index on, below the end. Where y lies between their ends the bands that
    // end below it are counted, with no jump that depends on y.
    #[inline(always)]
    fn sought_between(&self, first: usize, end: usize, scale: u32, y: u64) -> Option<usize>
        requires some { first < end }
        requires there { end ≤ length self.now.bands.now }
        ensures { result ≡ find (lands scale y self.now.bands.now) (indexes first end) }
    {
        let bottom = product(scale, self.band_at(first).bottom);
        let top = product(scale, self.band_at(end - 1).top);
        if is_over(bottom, y, first) && y <= top {
            return Some(first + count_below(&self.bands[first..end], scale, y));
        }
        None
    }

    // The band that holds y / scale, at most `allowed` bands tried. Where all may be, the busy three are told apart at once, then those after
    // them, then those before them: one band at the most holds y / scale, so that the order does not show. A table with no band after the
    // busy ones is gone through band by band.
    #[inline(always)]
    pub(crate) fn sought(&self, scale: u32, y: u64, allowed: usize) -> Option<usize>
        ensures { result ≡ sought scale y allowed self.now.bands.now }
    {
        let count = self.bands.len();
        if allowed < count || count <= 5 {
            return self.sought_in_order(scale, y, allowed);
        }
        if let Some(k) = self.sought_between(2, 5, scale, y) {
            return Some(k);
        }
        if let Some(k) = self.sought_between(5, count, scale, y) {
            return Some(k);
        }
        self.sought_between(0, 2, scale, y)
    }

    // The band of a price, at most `allowed` bands tried.
    #[inline(always)]
    pub fn band_of(&self, price: u32, allowed: usize) -> Option<usize>
        ensures { result ≡ band_of price allowed self.now.bands.now }
    {
        self.sought(1, u64::from(price), allowed)
    }

    // Where a price lies; nowhere outside the ends.
    #[inline(always)]
    pub(crate) fn lies(&self, price: u32) -> Option<Lies>
        ensures index { option_map (λ found. found.index) result ≡ band_of price (length self.now.bands.now) self.now.bands.now }
        ensures lies { IfSome result (LiesIn self.now.bands.now price) }
        ensures missing { is_none result ≡ is_outside price (prices_of self.now) }
    {
        let index = self.band_of(price, self.bands.len())?;
        Some(Lies {
            index,
            band: self.band_at(index),
            inverse: self.inverse_at(index),
        })
    }

    // Whether a price that lies in a band, or on its bottom, is on the ladder.
    #[tactic(auto, using(crate::proofs::Tables::Stands::told_by_remainder))]
    #[inline(always)]
    pub(crate) fn is_on(&self, found: Lies, price: u32) -> bool
        requires { LiesIn self.now.bands.now price found }
        ensures { result ≡ holds price (prices_of self.now) }
    {
        let over = price - found.band.bottom;
        is_multiple(over, found.band.spread, found.inverse)
    }

    // The index of the band in which a price stands; none for a price off the ladder.
    #[inline(always)]
    pub(crate) fn standing_of(&self, price: u32) -> Option<usize>
        ensures { result ≡ standing_of price self.now.bands.now }
    {
        let found = self.lies(price)?;
        let is_on = self.is_on(found, price);
        is_on.then_some(found.index)
    }
}
