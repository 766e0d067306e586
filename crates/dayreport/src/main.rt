// dayreport: questions on standard input, one page of counts on standard output.
//
// The input is read piece by piece. Each piece is judged once, as a batch, and counted into what was counted before; at the end the page is
// made and written. What `print` requires says what is written, and the law `run_is_printed` that the cuts do not show. What cannot be read or
// written is said on standard error. After a read that failed no page is written: half a report looks finished. Arguments are not looked at.
#![tactic(auto)]

ghost use Rattle.std.specs.Prelude.{◌≡◌, ◌+◌, ◌*◌, ◌≤◌, ◌<◌, length, take, drop};
ghost use Rattle.ladder.specs.Named.{usual_ladder};
ghost use Rattle.limits.specs.Limits.{five_percent};
ghost use Rattle.questions.specs.Record.{count_of};
ghost use Rattle.report.specs.Records.{answers_of, answers_in};
ghost use Rattle.report.specs.Counts.{all_added, AreCounts, total};
ghost use Rattle.report.specs.Widths.{together};
ghost use Rattle.report_page.specs.Page.{page};
ghost use Rattle.dayreport.specs.Run.{counts_in, widths_in, piece_bytes, Counted, PrintedOf};

use batch::{ANSWER_BYTES, MOST_QUESTIONS, judge_batch};
use pieces::{Input, fill, say_failure};
use questions::QUESTION_BYTES;
use report::counting::counted;
use report::measuring::measured;
use report::{COLUMNS, Counts, ROWS, Widths};
use report_page::{PAGE_ROOM, write_page};
use std::io;
use std::io::Write;

// What messages begin with.
const PROGRAM: &str = "dayreport";

// The bytes that are read at a time, those of their answers, and how many times at most.
const PIECE_BYTES: usize = MOST_QUESTIONS * QUESTION_BYTES;

const ANSWERS_BYTES: usize = MOST_QUESTIONS * ANSWER_BYTES;

const MOST_PIECES: u32 = 1 << 30;

// Judges the whole questions of a piece as a batch, and counts them into what was counted before.
fn count_piece(counts: Counts, came: &[u8], answers: &mut [u8; ANSWERS_BYTES]) -> Counts
    requires some { AreCounts counts }
    requires piece { length came.now ≤ piece_bytes }
    requires room { total counts + count_of (length came.now) < 18446744073709551616 }
    ensures counts { result ≡ all_added counts (counts_in came.now) }
    ensures answers { answers_in (count_of (length came.now)) answers.new ≡ answers_of usual_ladder five_percent came.now }
{
    let whole = came.len() / QUESTION_BYTES * QUESTION_BYTES;
    let questions = &came[..whole];
    judge_batch(questions, answers).unwrap();
    counted(counts, questions, answers)
}

// Takes the widths of its answers to those of before.
fn measure_piece(widths: Widths, came: &[u8], answers: &[u8; ANSWERS_BYTES]) -> Widths
    requires piece { length came.now ≤ piece_bytes }
    requires judged { answers_in (count_of (length came.now)) answers.now ≡ answers_of usual_ladder five_percent came.now }
    requires ranges { widths.ranges + count_of (length came.now) < 18446744073709551616 }
    requires sum { (together widths (widths_in came.now)).sum < 18446744073709551616 }
    ensures { result ≡ together widths (widths_in came.now) }
{
    measured(widths, answers, came.len() / QUESTION_BYTES)
}

// Writes a page, and nothing else. No definition gives the answer: it is the system's. What is written is said by `requires`: the page of all
// that came, in `index` full pieces and a last one, which came without a failure and is not full. `index`, `piece` and `input` are there for it.
fn print(
    writer: &mut impl Write,
    index: u32,
    piece: &[u8],
    input: Input,
    page: &[u8],
) -> io::Result<()>
    requires { PrintedOf index input.has_failed (take input.bytes piece.now) page.now }
{
    writer.write_all(page)
}

// Makes the page and writes it.
fn write_report(
    rt: &(impl Eprint + AllocGlobal),
    writer: &mut impl Write,
    index: u32,
    piece: &[u8],
    input: Input,
    counts: &Counts,
    widths: Widths,
)
    requires { Counted index input.has_failed (take input.bytes piece.now) counts.now widths }
{
    let mut text = [0u8; PAGE_ROOM];
    let start = write_page(counts, widths, &mut text);
    if let Err(error) = print(writer, index, piece, input, &text[start..]) {
        say_failure(rt, PROGRAM, "standard output", error);
    }
}

// Counts piece after piece. A loop has to end: this one does after 2^30 full pieces, more than 10^12 questions, and then there is no page.
fn main(rt: HostRuntime) {
    let mut reader = rt.stdin();
    let mut piece = [0u8; PIECE_BYTES];
    let mut answers = [0u8; ANSWERS_BYTES];
    let mut counts = [[0; COLUMNS]; ROWS];
    let mut widths = Widths {
        ranges: 0,
        sum: 0,
        smallest: 0,
        largest: 0,
    };
    for index in 0..MOST_PIECES {
        let input = fill(&rt, PROGRAM, &mut reader, &mut piece);
        if input.has_failed {
            return;
        }
        let came = &piece[..input.bytes];
        // The table that a call answers has a name of its own before it is kept.
        let more = count_piece(counts, came, &mut answers);
        counts = more;
        widths = measure_piece(widths, came, &answers);
        let has_ended = input.bytes < PIECE_BYTES;
        if has_ended {
            return write_report(&rt, &mut rt.stdout(), index, &piece, input, &counts, widths);
        }
    }
    let _ = eprintln!(&rt; "{PROGRAM}: standard input: too many questions");
}
