// The day report: how many questions have which side and which answer number, and how wide the shown ranges are.
#![tactic(auto)]

pub mod counting; // counting.rt: the counts by side and number
pub mod measuring; // measuring.rt: the widths of the shown ranges

// A row for each number that a question can get, with a column for each side.
pub const ROWS: usize = 11;

pub const COLUMNS: usize = 3;

pub type Counts = [[u64; COLUMNS]; ROWS];

// How many ranges are shown, the sum of their widths, the smallest and the largest.
#[derive(Clone, Copy, Debug, PartialEq, Eq)]
pub struct Widths {
    pub ranges: u64,
    pub sum: u64,
    pub smallest: u32,
    pub largest: u32,
}
