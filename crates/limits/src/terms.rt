// What limits are worked out by, and questions are judged by: a spread table and a percentage.
ghost use Rattle.std.specs.Prelude.{◌≡◌};
ghost use Rattle.limits.specs.Limits.{five_percent};
ghost use Rattle.limits.specs.Terms.{bad_terms_number, terms_on, basis_found};

use super::Percentage;
use ladder::named::table_of;
use ladder::table::SpreadTable;

// A spread table and a percentage.
#[derive(Clone, Copy)]
pub struct Terms<'a> {
    pub table: SpreadTable<'a>,
    pub percentage: Percentage,
}

// Why a call has no terms, with document 02's number.
#[derive(Clone, Copy, Debug, PartialEq, Eq)]
pub enum BadTerms {
    // A table number that is not 1 to 3.
    UnknownTable = 14,
}

impl BadTerms {
    // The number.
    pub fn number(self) -> u32
        ensures { result ≡ bad_terms_number self }
    {
        self as u32
    }
}

// 5 percent below a reference is 95 hundredths of it, 5 percent above it 105.
const FIVE_PERCENT: Percentage = Percentage {
    scale: 100,
    lower: 95,
    upper: 105,
};

// 5 percent.
pub fn five_percent() -> Percentage
    ensures { result ≡ five_percent }
{
    FIVE_PERCENT
}

// The table that a number names, and 5 percent.
pub fn terms_on(table: u32) -> Result<Terms<'static>, BadTerms>
    ensures { basis_found result ≡ terms_on table }
{
    match table_of(table) {
        Some(table) => Ok(Terms {
            table,
            percentage: five_percent(),
        }),
        None => Err(BadTerms::UnknownTable),
    }
}
