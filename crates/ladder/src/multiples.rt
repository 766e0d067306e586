// Whether a number is a multiple of a spread, and what is left of it over one, by the inverse of the spread and with no division.
//
// The inverse, times the spread, is over 2^31 by less than the spread. So a number below 2^31, times the inverse, is over as many times 2^31 as the
// spread goes into it, by less than twice 2^31; and for a multiple of the spread by less than once. A division by 2^31, which is a shift, tells
// how many times: it may be one too many, but not for a multiple.
ghost use Rattle.std.specs.Prelude.{◌≡◌, ◌*◌, ◌/◌, ◌%◌, ◌<◌, eqb};
ghost use Rattle.tables.specs.Inverses.{price_limit, inverse_of};

use super::numbers::product;

// The multiple of the spread that its inverse tells: the last up to n, or the next one.
fn told(n: u32, spread: u32, inverse: u32) -> u32
    requires some { 0 < spread }
    requires low { n < price_limit }
    requires inverse { inverse ≡ inverse_of spread }
    ensures { result ≡ n * inverse / price_limit * spread }
{
    let quotient = (product(n, inverse) / 2_147_483_648) as u32;
    quotient * spread
}

// Whether n is a multiple of a spread.
pub(crate) fn is_multiple(n: u32, spread: u32, inverse: u32) -> bool
    requires some { 0 < spread }
    requires low { n < price_limit }
    requires inverse { inverse ≡ inverse_of spread }
    ensures { result ≡ eqb (n % spread) 0 }
{
    told(n, spread, inverse) == n
}

// What is left of n over a multiple of the spread.
#[tactic(auto, using(crate::proofs::Divides::left_over, crate::proofs::Divides::left_under, crate::proofs::Divides::told_near))]
pub(crate) fn remainder(n: u32, spread: u32, inverse: u32) -> u32
    requires some { 0 < spread }
    requires low { n < price_limit }
    requires inverse { inverse ≡ inverse_of spread }
    ensures { result ≡ n % spread }
{
    let told = told(n, spread, inverse);
    if told <= n {
        return n - told;
    }
    spread - (told - n)
}
