// What the first part gives as plain numbers, and a range from plain numbers.
ghost use Rattle.std.specs.Prelude.{◌≡◌};
ghost use Rattle.preparing.specs.Numbers.{prepared_numbers, range_from};

use super::{Prepared, PreparedNumbers};
use questions::Reference;
use ranges::Range;

impl From<Prepared> for PreparedNumbers {
    ghost from_gives = { λ prepared numbers. numbers ≡ prepared_numbers prepared };

    fn from(prepared: Prepared) -> PreparedNumbers {
        match prepared {
            Ok(range) => PreparedNumbers {
                number: 0,
                lowest: range.lowest,
                highest: range.highest,
                nine_fold: u32::from(range.nine_fold),
            },
            Err(why) => PreparedNumbers {
                number: why.number(),
                lowest: 0,
                highest: 0,
                nine_fold: 0,
            },
        }
    }
}

// The range of any three numbers; 0 is a missing nine-fold reference.
pub fn range_from(lowest: u32, highest: u32, nine_fold: u32) -> Range
    ensures { result ≡ range_from lowest highest nine_fold }
{
    Range {
        lowest,
        highest,
        nine_fold: Reference::from(nine_fold),
    }
}
