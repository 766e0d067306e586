// A line of output: what was asked, what was found, and whether that is right.
//
// A function that only writes to standard output has no contract, since what is written is the system's. The stored output is compared by
// the gate.
ghost use Rattle.std.specs.Prelude.{◌≡◌, ◌↔◌, IsTrue, codes, if◌then◌else◌};

use judging::Answer;
use orders::{Order, question};
use std::io;

// The answer that is due.
pub(crate) fn due(number: u32, lowest: u32, highest: u32) -> Answer
    ensures { result ≡ record { number = number; lowest = lowest; highest = highest } }
{
    Answer {
        number,
        lowest,
        highest,
    }
}

// Whether an answer is the one that is due, in all its three numbers.
fn is_right(found: Answer, due: Answer) -> bool
    ensures { IsTrue result ↔ (found ≡ due) }
{
    found == due
}

// Whether a number, or a price, is the one that is due.
fn is_due(number: u32, due: u32) -> bool
    ensures { IsTrue result ↔ (number ≡ due) }
{
    number == due
}

// How a line ends.
fn ending(is_right: bool) -> &'static str
    ensures { result.now ≡ (if is_right then codes "right" else codes "WRONG") }
{
    if is_right { "right" } else { "WRONG" }
}

// An answer at a price, and the one that is due.
pub(crate) fn answer(
    rt: &impl Print,
    asked: &str,
    price: u32,
    found: Answer,
    due: Answer,
) -> io::Result<()> {
    println!(rt;
        "{asked} at {price}: {found}, due {due} {}",
        ending(is_right(found, due))
    )
}

// An order at a price, judged by its bytes.
pub(crate) fn order(
    rt: &impl Print,
    asked: &str,
    tried: Order,
    price: u32,
    due: Answer,
) -> io::Result<()> {
    let found = judging::judge(&question(tried, price));
    answer(rt, asked, price, found, due)
}

// An order price outside the range, and the number that it gets.
#[derive(Clone, Copy)]
pub(crate) struct Tried {
    pub price: u32,
    pub number: u32,
}

pub(crate) fn outside(price: u32, number: u32) -> Tried
    ensures { result ≡ record { price = price; number = number } }
{
    Tried { price, number }
}

// An order at the lowest and the highest price that are due, and at one below and one above.
pub(crate) fn range(
    rt: &impl Print,
    asked: &str,
    tried: Order,
    due: Answer,
    below: Tried,
    above: Tried,
) -> io::Result<()> {
    order(rt, asked, tried, due.lowest, due)?;
    order(rt, asked, tried, due.highest, due)?;
    for Tried { price, number } in [below, above] {
        order(rt, asked, tried, price, Answer { number, ..due })?;
    }
    Ok(())
}

// The number that an event got.
pub(crate) fn number(rt: &impl Print, event: &str, number: u32, due: u32) -> io::Result<()> {
    println!(rt;
        "{event}: {number}, due {due} {}",
        ending(is_due(number, due))
    )
}

// A step or a limit; 0 where none is found.
pub(crate) fn price(rt: &impl Print, asked: &str, found: Option<u32>, due: u32) -> io::Result<()> {
    number(rt, asked, found.unwrap_or(0), due)
}

// A step or a limit, and what a wrong program would find.
pub(crate) fn price_and_not(
    rt: &impl Print,
    asked: &str,
    found: Option<u32>,
    due: u32,
    not: u32,
) -> io::Result<()> {
    let price = found.unwrap_or(0);
    println!(rt;
        "{asked}: {price}, due {due} and not {not} {}",
        ending(is_due(price, due) && !is_due(price, not))
    )
}
