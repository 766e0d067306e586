// The tables that a call may name by number, in mils. They have the same edges; the bands whose spread is not that of the table before are
// marked.
ghost use Rattle.std.specs.Prelude.{◌≡◌, is_none, IfSome};
ghost use Rattle.tables.specs.Named.{table_named, unknown_table};

use super::Band;

// A band by its bottom, top and spread.
macro_rules! band {
    ($bottom:expr, $top:expr, $spread:expr) => {
        Band {
            bottom: $bottom,
            top: $top,
            spread: $spread,
        }
    };
}

// 1: the table before Phase 1.
pub(crate) const BEFORE_PHASE_1: [Band; 12] = [
    band!(10, 250, 1),
    band!(250, 500, 5),
    band!(500, 10_000, 10),
    band!(10_000, 20_000, 20),
    band!(20_000, 50_000, 50),
    band!(50_000, 100_000, 50),
    band!(100_000, 200_000, 100),
    band!(200_000, 500_000, 200),
    band!(500_000, 1_000_000, 500),
    band!(1_000_000, 2_000_000, 1_000),
    band!(2_000_000, 5_000_000, 2_000),
    band!(5_000_000, 9_995_000, 5_000),
];

// 2: the table of Phase 1.
pub(crate) const PHASE_1: [Band; 12] = [
    band!(10, 250, 1),
    band!(250, 500, 5),
    band!(500, 10_000, 10),
    band!(10_000, 20_000, 10), // 20 before
    band!(20_000, 50_000, 20), // 50 before
    band!(50_000, 100_000, 50),
    band!(100_000, 200_000, 100),
    band!(200_000, 500_000, 200),
    band!(500_000, 1_000_000, 500),
    band!(1_000_000, 2_000_000, 1_000),
    band!(2_000_000, 5_000_000, 2_000),
    band!(5_000_000, 9_995_000, 5_000),
];

// 3: the table of Phase 2.
pub(crate) const PHASE_2: [Band; 12] = [
    band!(10, 250, 1),
    band!(250, 500, 5),
    band!(500, 10_000, 5), // 10 before
    band!(10_000, 20_000, 10),
    band!(20_000, 50_000, 20),
    band!(50_000, 100_000, 50),
    band!(100_000, 200_000, 100),
    band!(200_000, 500_000, 200),
    band!(500_000, 1_000_000, 500),
    band!(1_000_000, 2_000_000, 1_000),
    band!(2_000_000, 5_000_000, 2_000),
    band!(5_000_000, 9_995_000, 5_000),
];

// The bands of the table that a number names; none where it names no table.
#[tactic(auto, unfolding(crate::specs::Named::table_named, crate::specs::Named::before_phase1, crate::specs::Named::phase1, crate::specs::Named::phase2))]
pub fn bands_of(table: u32) -> Option<&'static [Band]>
    ensures bands { IfSome result (λ bands. bands.now ≡ table_named table) }
    ensures missing { is_none result ≡ unknown_table table }
{
    match table {
        1 => Some(&BEFORE_PHASE_1),
        2 => Some(&PHASE_1),
        3 => Some(&PHASE_2),
        0 | 4..=u32::MAX => None,
    }
}
