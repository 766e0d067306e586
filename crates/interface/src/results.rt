// A price, a place or a band, or none, as two numbers.
ghost use Rattle.std.specs.Prelude.{◌≡◌};
ghost use Rattle.interface.specs.Results.{price_found, place_found, band_found};

use super::{BandFound, PlaceFound, PriceFound};

// 1 and the price, or 0 and 0.
impl From<Option<u32>> for PriceFound {
    ghost from_gives = { λ price found. found ≡ price_found price };

    #[tactic(auto, unfolding(crate::specs::Results::price_found))]
    fn from(price: Option<u32>) -> PriceFound {
        match price {
            Some(price) => PriceFound { found: 1, price },
            None => PriceFound { found: 0, price: 0 },
        }
    }
}

// 1 and the place, or 0 and 0.
impl From<Option<u32>> for PlaceFound {
    ghost from_gives = { λ place found. found ≡ place_found place };

    #[tactic(auto, unfolding(crate::specs::Results::place_found))]
    fn from(place: Option<u32>) -> PlaceFound {
        match place {
            Some(place) => PlaceFound { found: 1, place },
            None => PlaceFound { found: 0, place: 0 },
        }
    }
}

// 1 and the index, or 0 and 0.
impl From<Option<u32>> for BandFound {
    ghost from_gives = { λ index found. found ≡ band_found index };

    #[tactic(auto, unfolding(crate::specs::Results::band_found))]
    fn from(index: Option<u32>) -> BandFound {
        match index {
            Some(index) => BandFound { found: 1, index },
            None => BandFound { found: 0, index: 0 },
        }
    }
}
