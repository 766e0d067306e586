// The percentage limits of a reference by themselves, before spreads are looked at.
ghost use Rattle.std.specs.Prelude.{◌≡◌};
ghost use Rattle.ladder.specs.Layout.{prices_of};
ghost use Rattle.limits.specs.Limits.{percent_lower, percent_upper, percent_lower_found, percent_upper_found};

use super::terms::Terms;
use ladder::numbers::product;

impl Terms<'_> {
    // The smallest ladder price q with scale * q at least lower * reference, or the last price where there is none.
    #[inline(always)]
    pub(crate) fn rounded_up(&self, reference: u32) -> u32
        ensures { result ≡ percent_lower (prices_of self.now.table) self.now.percentage reference }
    {
        let percentage = self.percentage;
        self.table
            .at_least(percentage.scale, product(percentage.lower, reference))
            .unwrap_or(self.table.last_price())
    }

    // The largest ladder price q with scale * q at most upper * reference, or the first price where there is none.
    #[inline(always)]
    pub(crate) fn rounded_down(&self, reference: u32) -> u32
        ensures { result ≡ percent_upper (prices_of self.now.table) self.now.percentage reference }
    {
        let percentage = self.percentage;
        self.table
            .at_most(percentage.scale, product(percentage.upper, reference))
            .unwrap_or(self.table.first_price())
    }

    // The lower percentage limit; none from a reference outside the ends.
    pub fn percent_lower(&self, reference: u32) -> Option<u32>
        ensures { result ≡ percent_lower_found (prices_of self.now.table) self.now.percentage reference }
    {
        if self.table.is_outside(reference) {
            return None;
        }
        Some(self.rounded_up(reference))
    }

    // The upper percentage limit; none from a reference outside the ends.
    pub fn percent_upper(&self, reference: u32) -> Option<u32>
        ensures { result ≡ percent_upper_found (prices_of self.now.table) self.now.percentage reference }
    {
        if self.table.is_outside(reference) {
            return None;
        }
        Some(self.rounded_down(reference))
    }
}
