// The tables that a call may name by number.
ghost use Rattle.std.specs.Prelude.{◌≡◌, is_none, IfSome};
ghost use Rattle.tables.specs.Named.{phase1, table_named, unknown_table};

use super::table::SpreadTable;
use tables::inverses::inverses_of;
use tables::named::bands_of;

// The table that a number names; none where it names no table.
#[tactic(auto, using(crate::proofs::ByNumber::well, crate::proofs::ByNumber::low))]
pub fn table_of(number: u32) -> Option<SpreadTable<'static>>
    ensures bands { IfSome result (λ table. table.bands.now ≡ table_named number) }
    ensures missing { is_none result ≡ unknown_table number }
{
    let bands = bands_of(number)?;
    let inverses = inverses_of(number)?;
    Some(SpreadTable { bands, inverses })
}

// The table of Phase 1.
#[tactic(auto, unfolding(tables::specs::Named::table_named))]
pub fn phase_1() -> SpreadTable<'static>
    ensures { result.bands.now ≡ phase1 }
{
    table_of(2).unwrap()
}
