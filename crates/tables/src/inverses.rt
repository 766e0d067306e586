// What stands beside the spreads of the tables that a call may name by number, so that a price is tested against a spread by multiplication.
ghost use Rattle.std.specs.Prelude.{◌≡◌, is_none, IfSome};
ghost use Rattle.tables.specs.Named.{table_named, unknown_table};
ghost use Rattle.tables.specs.Inverses.{inverses_of};

use super::named::{BEFORE_PHASE_1, PHASE_1, PHASE_2};

// The inverse of the spread of a band.
macro_rules! inverse {
    ($band:expr) => {
        2_147_483_647 / $band.spread + 1
    };
}

// Those of all bands of a table.
macro_rules! inverses {
    ($bands:ident) => {
        [
            inverse!($bands[0]),
            inverse!($bands[1]),
            inverse!($bands[2]),
            inverse!($bands[3]),
            inverse!($bands[4]),
            inverse!($bands[5]),
            inverse!($bands[6]),
            inverse!($bands[7]),
            inverse!($bands[8]),
            inverse!($bands[9]),
            inverse!($bands[10]),
            inverse!($bands[11]),
        ]
    };
}

const OF_BEFORE_PHASE_1: [u32; 12] = inverses!(BEFORE_PHASE_1);

const OF_PHASE_1: [u32; 12] = inverses!(PHASE_1);

const OF_PHASE_2: [u32; 12] = inverses!(PHASE_2);

// The inverses of the table that a number names, band by band; none where it names no table.
#[tactic(auto, unfolding(crate::specs::Named::table_named, crate::specs::Named::before_phase1, crate::specs::Named::phase1, crate::specs::Named::phase2))]
pub fn inverses_of(table: u32) -> Option<&'static [u32]>
    ensures inverses { IfSome result (λ inverses. inverses.now ≡ inverses_of (table_named table)) }
    ensures missing { is_none result ≡ unknown_table table }
{
    match table {
        1 => Some(&OF_BEFORE_PHASE_1),
        2 => Some(&OF_PHASE_1),
        3 => Some(&OF_PHASE_2),
        0 | 4..=u32::MAX => None,
    }
}
