// The counts by side and number.
ghost use Rattle.std.specs.Prelude.{◌≡◌, ◌+◌, ◌*◌, ◌≤◌, ◌<◌, [], ◌∷◌, length, get_or};
ghost use Rattle.questions.specs.Record.{question_bytes, count_of, question_at};
ghost use Rattle.batch.specs.Record.{answer_bytes};
ghost use Rattle.report.specs.Records.{Entry, entries_in};
ghost use Rattle.report.specs.Counts.{numbers, counts_of, all_added, place_in, AreCounts};
ghost use Rattle.report.specs.Counts.{column_of as Counts·column_of, total as Counts·total};

use super::{Counts, ROWS};
use batch::ANSWER_BYTES;
use little_endian::number_at;
use questions::QUESTION_BYTES;
use questions::code_names::{BUY, SELL};
use questions::decoding::side_of;

// The numbers that a question can get, one for each row.
const NUMBERS: [u32; ROWS] = [0, 2, 3, 4, 5, 6, 7, 8, 9, 10, 15];

// The number of a row.
pub fn number_of(row: usize) -> u32
    requires { row < length numbers }
    ensures { result ≡ get_or numbers row 0 }
{
    NUMBERS[row]
}

// The column of a side.
fn column_of(side: u8) -> usize
    ensures { result ≡ Counts·column_of side }
{
    match side {
        BUY => 0,
        SELL => 1,
        _ => 2,
    }
}

// The row of a number; none where no question can get it.
#[tactic(auto, unfolding(crate::specs::Counts::place_in))]
fn row_of(number: u32) -> Option<usize>
    ensures { result ≡ place_in numbers number }
{
    match number {
        0 => Some(0),
        2 => Some(1),
        3 => Some(2),
        4 => Some(3),
        5 => Some(4),
        6 => Some(5),
        7 => Some(6),
        8 => Some(7),
        9 => Some(8),
        10 => Some(9),
        15 => Some(10),
        _ => None,
    }
}

// The records of a batch more, each in the row of its number and the column of its side. By the bytes of its questions and of their answers.
#[tactic(auto, using(crate::proofs::OneMore::row_within, crate::proofs::OneMore::in_total))]
pub fn counted(counts: Counts, questions: &[u8], answers: &[u8]) -> Counts
    requires some { AreCounts counts }
    requires answered { count_of (length questions.now) * answer_bytes ≤ length answers.now }
    requires room { Counts·total counts + count_of (length questions.now) < 18446744073709551616 }
    ensures { result ≡ all_added counts (counts_of (entries_in (count_of (length questions.now)) questions.now answers.now)) }
{
    let mut counts = counts;
    for k in 0..questions.len() / QUESTION_BYTES {
        let start = k * QUESTION_BYTES;
        let column = column_of(side_of(&questions[start..start + QUESTION_BYTES]));
        if let Some(row) = row_of(number_at(answers, k * ANSWER_BYTES)) {
            counts[row][column] += 1;
        }
    }
    counts
}

// All counts, summed.
pub fn total(counts: &Counts) -> u64
    requires some { AreCounts counts.now }
    requires room { Counts·total counts.now < 18446744073709551616 }
    ensures { result ≡ Counts·total counts.now }
{
    let mut sum = 0;
    for i in 0..ROWS {
        let row = counts[i];
        sum += row[0] + row[1] + row[2];
    }
    sum
}
