// The page of a day report: thirteen lines, written from the last to the first.
#![tactic(auto)]

ghost use Rattle.std.specs.Prelude.{◌≡◌, ◌+◌, ◌*◌, ◌≤◌, ◌<◌, length, get_or};
ghost use Rattle.text.specs.Ending.{StandsFrom, Written};
ghost use Rattle.report.specs.Counts.{numbers, total, AreCounts};
ghost use Rattle.report_page.specs.Page.{row_line, row_lines, widths_line, total_line, page, row_room, widths_room, page_room};

use report::counting::{number_of, total};
use report::{COLUMNS, Counts, ROWS, Widths};
use text::Filling;

// The most characters that a line of a row has, the line of the widths, the last one, and the page.
const ROW_ROOM: usize = 74;

const WIDTHS_ROOM: usize = 64;

const TOTAL_ROOM: usize = 21;

pub const PAGE_ROOM: usize = ROWS * ROW_ROOM + WIDTHS_ROOM + TOTAL_ROOM;

// Writes the line of a row.
#[tactic(auto, using(crate::proofs::Lengths::number_fits, crate::proofs::Lengths::small_fits))]
fn put_row(text: &mut Filling, number: u32, row: [u64; COLUMNS])
    requires { row_room ≤ text.old.start }
    ensures line { Written (row_line number row) text.old text.new }
    ensures room { text.old.start ≤ text.new.start + row_room }
{
    text.put_field(row[2], b'\n');
    text.put_field(row[1], b' ');
    text.put_field(row[0], b' ');
    text.put_field(u64::from(number), b' ');
}

// Writes the lines of all rows.
fn put_rows(text: &mut Filling, counts: &Counts)
    requires { length numbers * row_room ≤ text.old.start }
    ensures { Written (row_lines (length numbers) counts.now) text.old text.new }
{
    for i in (0..ROWS).rev() {
        put_row(text, number_of(i), counts[i]);
    }
}

// Writes the line of the widths.
#[tactic(auto, using(crate::proofs::Lengths::number_fits, crate::proofs::Lengths::small_fits))]
fn put_widths(text: &mut Filling, widths: Widths)
    requires { widths_room ≤ text.old.start }
    ensures line { Written (widths_line widths) text.old text.new }
    ensures room { text.old.start ≤ text.new.start + widths_room }
{
    text.put_field(u64::from(widths.largest), b'\n');
    text.put_field(u64::from(widths.smallest), b' ');
    text.put_field(widths.sum, b' ');
    text.put_field(widths.ranges, b' ');
}

// Writes the page.
#[tactic(auto, using(crate::proofs::Lengths::number_fits))]
fn put_page(text: &mut Filling, counts: &Counts, widths: Widths)
    requires some { AreCounts counts.now }
    requires total { total counts.now < 18446744073709551616 }
    requires fits { page_room ≤ text.old.start }
    ensures { Written (page counts.now widths) text.old text.new }
{
    text.put_field(total(counts), b'\n');
    put_widths(text, widths);
    put_rows(text, counts);
}

// Writes the page at the end of a text. Answers where it begins.
#[tactic(auto, using(crate::proofs::Lengths::stands_at_end))]
pub fn write_page(counts: &Counts, widths: Widths, text: &mut [u8; PAGE_ROOM]) -> usize
    requires some { AreCounts counts.now }
    requires total { total counts.now < 18446744073709551616 }
    ensures { StandsFrom result (page counts.now widths) text.new }
{
    let mut filling = Filling::new(text);
    put_page(&mut filling, counts, widths);
    filling.start()
}
