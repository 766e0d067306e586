// The lines, written from the last to the first.
ghost use Rattle.std.specs.Prelude.{◌≡◌, ◌+◌, ◌*◌, ◌≤◌, ◌<◌, length};
ghost use Rattle.text.specs.Ending.{StandsFrom, Written};
ghost use Rattle.ladder.specs.Layout.{prices_of};
ghost use Rattle.questions.specs.Record.{question_bytes};
ghost use Rattle.pages.specs.Lines.{line, lines_to, left_line, refusal_line};
ghost use Rattle.pages.specs.Pages.{line_room, left_room, page_count, page_place, text_after};

use super::{LEFT_ROOM, LINE_ROOM};
use judging::Answer;
use judging::answers::judge as judge_question;
use limits::terms::{BadTerms, Terms};
use questions::QUESTION_BYTES;
use questions::decoding::security_code_of;
use text::Filling;

// Writes the line of one question, with its security code.
#[tactic(auto, using(crate::proofs::Lengths::number_fits, crate::proofs::Lengths::price_fits))]
fn put_line(text: &mut Filling, number: u64, answer: Answer, code: u32)
    requires { line_room ≤ text.old.start }
    ensures line { Written (line number answer code) text.old text.new }
    ensures room { text.old.start ≤ text.new.start + line_room }
{
    text.put_field(u64::from(code), b'\n');
    text.put_field(u64::from(answer.highest), b' ');
    text.put_field(u64::from(answer.lowest), b' ');
    text.put_field(u64::from(answer.number), b' ');
    text.put_field(number, b' ');
}

// Writes the lines of the first `count` questions, each judged by its first and its second part.
fn put_lines(terms: &Terms, questions: &[u8], count: usize, first: u64, text: &mut Filling)
    requires asked { count * question_bytes ≤ length questions.now }
    requires numbers { first + count < 18446744073709551616 }
    requires fits { count * line_room ≤ text.old.start }
    ensures { Written (lines_to (prices_of terms.now.table) terms.now.percentage first count questions.now) text.old text.new }
{
    for k in (0..count).rev() {
        let start = k * QUESTION_BYTES;
        let question = &questions[start..start + QUESTION_BYTES];
        let answer = judge_question(terms, question);
        put_line(text, first + k as u64, answer, security_code_of(question));
    }
}

// Writes the line of the bytes that are left over, if there are any.
#[tactic(auto, using(crate::proofs::Lengths::left_fits))]
fn put_left(text: &mut Filling, left: usize)
    requires left { left < question_bytes }
    requires fits { left_room ≤ text.old.start }
    ensures line { Written (left_line left) text.old text.new }
    ensures room { text.old.start ≤ text.new.start + left_room }
{
    if left == 0 {
        return;
    }
    text.put_field(left as u64, b'\n');
    text.put_word(b"left ");
}

// How many questions a page has, or none where it is refused: by the number of its first question, the bytes of the questions and those of
// the text.
fn count(first: u64, asked: usize, room: usize) -> Option<usize>
    ensures { result ≡ page_count first asked room }
{
    let count = asked / QUESTION_BYTES;
    let most = room.checked_sub(LEFT_ROOM)? / LINE_ROOM;
    first.checked_add(count as u64)?;
    (count <= most).then_some(count)
}

// Writes the lines of all whole questions, the first with the number `first`, and "left k" for k bytes that are left over, at the end of
// the text. Answers where they begin: none where the text has less than LINE_ROOM characters a question and LEFT_ROOM more, or where the
// number after the last has more than 64 bits. Such a page is refused, and the text keeps every byte.
pub fn write_page(terms: &Terms, questions: &[u8], first: u64, text: &mut [u8]) -> Option<usize>
    ensures place { result ≡ page_place (prices_of terms.now.table) terms.now.percentage first questions.now text.old }
    ensures text { text.new ≡ text_after (prices_of terms.now.table) terms.now.percentage first questions.now text.old }
{
    let count = count(first, questions.len(), text.len())?;
    let mut filling = Filling::new(text);
    put_left(&mut filling, questions.len() % QUESTION_BYTES);
    put_lines(terms, questions, count, first, &mut filling);
    Some(filling.start())
}

// Writes the line of why there is nothing to judge by at the end of the text. Answers where it begins.
#[tactic(auto, using(crate::proofs::Lengths::price_fits, crate::proofs::Lengths::stands_at_end))]
pub fn write_refusal(bad: BadTerms, text: &mut [u8]) -> usize
    requires { line_room ≤ length text.old }
    ensures { StandsFrom result (refusal_line bad) text.new }
{
    let mut filling = Filling::new(text);
    filling.put_field(u64::from(bad.number()), b'\n');
    filling.start()
}
