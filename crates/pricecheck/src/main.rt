// pricecheck: questions on standard input, a line for each on standard output, by the table that the argument names.
//
// The input is read piece by piece; the page of each is made and written. What `print` requires says what is written, and the law
// `pieces_join` that the cuts do not show. What cannot be read or written is said on standard error. After a read that failed the
// questions that came whole have their lines; after a write that failed nothing more is written, and the last line may be cut.
#![tactic(auto)]

mod arguments; // arguments.rt: which table the arguments name

ghost use Rattle.std.specs.Prelude.{◌≡◌, ◌≤◌, length, drop};
ghost use Rattle.limits.specs.Terms.{basis_of};
ghost use Rattle.pages.specs.Lines.{refusal_line};
ghost use Rattle.pricecheck.specs.Run.{answered_bytes as Run·answered_bytes};
ghost use Rattle.pricecheck.specs.Run.{page_from, EndsWith, piece_bytes, text_bytes, first_of, answered_part, goes_on};

use limits::terms::{BadTerms, Terms};
use pages::lines::{write_page, write_refusal};
use pieces::{Input, fill, say_failure};
use questions::QUESTION_BYTES;
use std::io;
use std::io::{Read, Write};

// What messages begin with.
const PROGRAM: &str = "pricecheck";

// How many questions are read at a time, the bytes that they have, and the characters that their page may have.
const PIECE_QUESTIONS: usize = 1600;

const PIECE_BYTES: usize = PIECE_QUESTIONS * QUESTION_BYTES;

const TEXT_BYTES: usize = PIECE_QUESTIONS * pages::LINE_ROOM + pages::LEFT_ROOM;

// The bytes of a piece that are answered: all that came, or after a read that failed those of whole questions only.
fn answered_bytes(input: Input) -> usize
    ensures answered { result ≡ Run·answered_bytes input.has_failed input.bytes }
    ensures inside { result ≤ input.bytes }
{
    let whole = input.bytes / QUESTION_BYTES * QUESTION_BYTES;
    if input.has_failed { whole } else { input.bytes }
}

// What became of a piece: what came of it, and whether its page was written. Not a `Result`, since what came says what the text holds also
// where that was not written.
#[derive(Clone, Copy)]
struct Outcome {
    input: Input,
    is_written: bool,
}

impl Outcome {
    // Whether another piece is read.
    fn does_go_on(self) -> bool
        ensures { result ≡ goes_on self.is_written self.input.has_failed self.input.bytes }
    {
        self.is_written && !self.input.has_failed && self.input.bytes == PIECE_BYTES
    }
}

// The number of the first question of a piece, by the piece's index, from 0.
fn first_of(index: u32) -> u64
    ensures { result ≡ first_of index }
{
    u64::from(index) * PIECE_QUESTIONS as u64 + 1
}

// Makes the page of the questions of a piece, at the end of the text. Answers where it begins. It is never refused: the law `pieces_fit`.
fn page_of(terms: &Terms, index: u32, questions: &[u8], text: &mut [u8; TEXT_BYTES]) -> usize
    requires { length questions.now ≤ piece_bytes }
    ensures inside { result ≤ text_bytes }
    ensures page { drop result text.new ≡ page_from (basis_of terms.now) (first_of index) questions.now }
{
    write_page(terms, questions, first_of(index), text).unwrap()
}

// Writes a page, and nothing else. No definition gives the answer: it is the system's. What is written is said by `requires`: the page of
// the bytes that came of a piece, numbered on. `terms`, `index`, `piece` and `input` are there for it.
fn print(
    writer: &mut impl Write,
    terms: &Terms,
    index: u32,
    piece: &[u8],
    input: Input,
    page: &[u8],
) -> io::Result<()>
    requires { page.now ≡ page_from (basis_of terms.now) (first_of index) (answered_part input.has_failed input.bytes piece.now) }
{
    writer.write_all(page)
}

// Reads a piece, makes its page and writes it. The text then ends with that page.
fn answer_piece(
    rt: &(impl Eprint + AllocGlobal),
    reader: &mut impl Read,
    writer: &mut impl Write,
    terms: &Terms,
    index: u32,
    piece: &mut [u8; PIECE_BYTES],
    text: &mut [u8; TEXT_BYTES],
) -> Outcome
    ensures { EndsWith text.new (page_from (basis_of terms.now) (first_of index) (answered_part result.input.has_failed result.input.bytes piece.new)) }
{
    let input = fill(rt, PROGRAM, reader, piece);
    let start = page_of(terms, index, &piece[..answered_bytes(input)], text);
    let is_written = match print(writer, terms, index, piece, input, &text[start..]) {
        Ok(()) => true,
        Err(error) => {
            say_failure(rt, PROGRAM, "standard output", error);
            false
        }
    };
    Outcome { input, is_written }
}

// Writes the line of why there is nothing to judge by, and nothing else: what `requires` says. `bad` is there for it.
fn print_refusal(writer: &mut impl Write, bad: BadTerms, line: &[u8]) -> io::Result<()>
    requires { line.now ≡ refusal_line bad }
{
    writer.write_all(line)
}

// Makes and writes that line. The text then ends with it.
fn refuse(
    rt: &(impl Eprint + AllocGlobal),
    writer: &mut impl Write,
    bad: BadTerms,
    text: &mut [u8; TEXT_BYTES],
)
    ensures { EndsWith text.new (refusal_line bad) }
{
    let start = write_refusal(bad, text);
    if let Err(error) = print_refusal(writer, bad, &text[start..]) {
        say_failure(rt, PROGRAM, "standard output", error);
    }
}

// Answers piece after piece. A loop has to end: this one does after 2^32 - 1 pieces, which is more than 2^42 questions.
fn main(rt: HostRuntime) {
    let mut reader = rt.stdin();
    let mut writer = rt.stdout();
    let mut piece = [0u8; PIECE_BYTES];
    let mut text = [0u8; TEXT_BYTES];
    let terms = match arguments::terms_named(&rt) {
        Ok(terms) => terms,
        Err(bad) => return refuse(&rt, &mut writer, bad, &mut text),
    };
    for index in 0..u32::MAX {
        let outcome = answer_piece(
            &rt,
            &mut reader,
            &mut writer,
            &terms,
            index,
            &mut piece,
            &mut text,
        );
        if !outcome.does_go_on() {
            break;
        }
    }
}
