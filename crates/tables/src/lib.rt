// Spread tables: their bands, and those that a call may name by number. Prices are whole mils.
#![tactic(auto)]

pub mod named; // named.rt: the tables that a number names
pub mod inverses; // inverses.rt: what stands beside their spreads

// A band of a table: the prices over `bottom`, up to `top`, a `spread` apart.
#[derive(Clone, Copy, Debug, PartialEq, Eq)]
pub struct Band {
    pub bottom: u32,
    pub top: u32,
    pub spread: u32,
}

// The table of the calls that name none.
pub const USUAL_TABLE: u32 = 2;
