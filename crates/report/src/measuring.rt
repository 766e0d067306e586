// The widths of the shown ranges.
ghost use Rattle.std.specs.Prelude.{◌≡◌, ◌+◌, ◌*◌, ◌/◌, ◌≤◌, ◌<◌, [], ◌∷◌, length};
ghost use Rattle.batch.specs.Record.{answer_bytes, answer_at};
ghost use Rattle.report.specs.Records.{answers_in};
ghost use Rattle.report.specs.Widths.{smaller, widths_of, together};

use super::Widths;
use batch::ANSWER_BYTES;
use judging::Answer;
use little_endian::number_at;

// An answer from its bytes.
fn answer_at(answers: &[u8], at: usize) -> Answer
    requires { at + answer_bytes ≤ length answers.now }
    ensures { result ≡ answer_at at answers.now }
{
    Answer {
        number: number_at(answers, at),
        lowest: number_at(answers, at + 4),
        highest: number_at(answers, at + 8),
    }
}

// The smallest width with one more.
fn smallest_with(widths: Widths, width: u32) -> u32
    ensures { result ≡ smaller widths.ranges widths.smallest 1 width }
{
    if widths.ranges == 0 {
        return width;
    }
    widths.smallest.min(width)
}

// One answer more: where it shows a range, its width.
fn one_wider(widths: Widths, answer: Answer) -> Widths
    requires ranges { widths.ranges + 1 < 18446744073709551616 }
    requires sum { (together widths (widths_of (answer ∷ []))).sum < 18446744073709551616 }
    ensures { result ≡ together widths (widths_of (answer ∷ [])) }
{
    if (answer.lowest == 0) & (answer.highest == 0) {
        return widths;
    }
    let width = answer.highest.saturating_sub(answer.lowest);
    Widths {
        ranges: widths.ranges + 1,
        sum: widths.sum + u64::from(width),
        smallest: smallest_with(widths, width),
        largest: widths.largest.max(width),
    }
}

// The first `count` answers of a batch more, by their bytes.
pub fn measured(widths: Widths, answers: &[u8], count: usize) -> Widths
    requires answered { count * answer_bytes ≤ length answers.now }
    requires ranges { widths.ranges + count < 18446744073709551616 }
    requires sum { (together widths (widths_of (answers_in count answers.now))).sum < 18446744073709551616 }
    ensures { result ≡ together widths (widths_of (answers_in count answers.now)) }
{
    let mut widths = widths;
    for k in 0..count {
        widths = one_wider(widths, answer_at(answers, k * ANSWER_BYTES));
    }
    widths
}
