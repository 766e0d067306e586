// Spread tables as the calls are lent them.
ghost use Rattle.std.specs.Prelude.{◌≡◌, ◌<◌, T};
ghost use Rattle.tables.specs.Bands.{well_formed};
ghost use Rattle.ladder.specs.Ladder.{ladder};
ghost use Rattle.ladder.specs.Places.{last_price};
ghost use Rattle.tables.specs.Inverses.{price_limit, inverses_of};

use tables::Band;

// The bands of a table and the inverses of their spreads, lent. It is well formed, and no price is so high that an inverse would not do: whoever
// makes one shows it.
#[derive(Clone, Copy)]
pub struct SpreadTable<'a> {
    pub bands: &'a [Band],
    pub inverses: &'a [u32],
    pub ghost is_well_formed: { T (well_formed bands.now) },
    pub ghost has_inverses: { inverses.now ≡ inverses_of bands.now },
    pub ghost is_low: { last_price (ladder bands.now) < price_limit },
}
