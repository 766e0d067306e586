// The lower and the upper limit of a reference: its percentage limit or so many spreads, whichever is further. By `#[inline(always)]`, here and in
// `percent`, they are compiled with what a caller knows of its table.
ghost use Rattle.std.specs.Prelude.{◌≡◌};
ghost use Rattle.ladder.specs.Layout.{prices_of};
ghost use Rattle.limits.specs.Limits.{lower_limit_found, upper_limit_found};

use super::terms::Terms;

// How many spreads a limit reaches at least.
const LIMIT_SPREADS: u64 = 24;

impl Terms<'_> {
    // The lower limit: the smaller of so many spreads down and the percentage limit; none from a reference outside the ends.
    #[inline(always)]
    pub fn lower_limit(&self, reference: u32) -> Option<u32>
        ensures { result ≡ lower_limit_found (prices_of self.now.table) self.now.percentage reference }
    {
        let spreads = self.table.down(reference, LIMIT_SPREADS)?;
        Some(spreads.min(self.rounded_up(reference)))
    }

    // The upper limit: the larger of so many spreads up and the percentage limit; none from a reference outside the ends.
    #[inline(always)]
    pub fn upper_limit(&self, reference: u32) -> Option<u32>
        ensures { result ≡ upper_limit_found (prices_of self.now.table) self.now.percentage reference }
    {
        let spreads = self.table.up(reference, LIMIT_SPREADS)?;
        Some(spreads.max(self.rounded_down(reference)))
    }
}
