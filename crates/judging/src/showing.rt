// The nine-fold rule, and the shown range: both bounds cut by the rule, and what is off the ladder rounded to it.
ghost use Rattle.std.specs.Prelude.{◌≡◌, ◌-◌, ◌*◌, min};
ghost use Rattle.ladder.specs.Layout.{prices_of};
ghost use Rattle.judging.specs.Shown.{fold, passes, shown_of};
ghost use Rattle.judging.specs.Cutting.{cut_lowest, cut_highest, shown_between};

use super::Shown;
use ladder::numbers::product;
use ladder::table::SpreadTable;
use questions::Reference;
use ranges::Range;

// A price fails where it is so many times its reference or more, or so small a part of it or less.
const FOLD: u32 = 9;

// No range.
pub(crate) const NONE: Shown = Shown {
    lowest: 0,
    highest: 0,
};

// Whether a price passes the nine-fold rule.
pub fn does_pass(nine_fold: Reference, price: u32) -> bool
    ensures { result ≡ passes nine_fold price }
{
    match nine_fold {
        Reference::Missing => true,
        Reference::Price(n) => {
            (u64::from(price) < product(FOLD, n)) & (u64::from(n) < product(FOLD, price))
        }
    }
}

// The lowest price of a range, raised to the first number that the nine-fold rule lets pass.
pub(crate) fn cut_lowest(lowest: u32, nine_fold: Reference) -> u32
    ensures { result ≡ cut_lowest lowest nine_fold }
{
    match nine_fold {
        Reference::Missing => lowest,
        Reference::Price(n) => lowest.max(n / FOLD + 1),
    }
}

// The smaller of a number and the last that is under nine times n.
fn below_fold(highest: u32, n: u32) -> u32
    ensures { result ≡ min highest (fold * n - 1) }
{
    let last = product(FOLD, n).saturating_sub(1);
    u64::from(highest).min(last) as u32
}

// The highest price of a range, lowered to the last number that the nine-fold rule lets pass.
pub(crate) fn cut_highest(highest: u32, nine_fold: Reference) -> u32
    ensures { result ≡ cut_highest highest nine_fold }
{
    match nine_fold {
        Reference::Missing => highest,
        Reference::Price(n) => below_fold(highest, n),
    }
}

// The range from one ladder price to another, or 0 and 0 where one of them was not found, or they do not rise.
pub(crate) fn shown_between(from: Option<u32>, to: Option<u32>) -> Shown
    ensures { result ≡ shown_between from to }
{
    match (from, to) {
        (Some(lowest), Some(highest)) if lowest <= highest => Shown { lowest, highest },
        _ => NONE,
    }
}

// The range that is shown, of any range: its bounds are cut, and rounded to the ladder.
#[tactic(auto, using(crate::proofs::Cuts::shown_falling, crate::proofs::Cuts::shown_rounded))]
#[inline(always)]
pub fn shown_of(table: &SpreadTable, range: Range) -> Shown
    ensures { result ≡ shown_of (prices_of table.now) range }
{
    let from = cut_lowest(range.lowest, range.nine_fold);
    let to = cut_highest(range.highest, range.nine_fold);
    // Nothing is shown then, and nothing need be rounded.
    if to < from {
        return NONE;
    }
    shown_between(table.at_or_above(from), table.at_or_below(to))
}
