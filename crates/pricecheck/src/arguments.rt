// Which table the arguments name.
ghost use Rattle.std.specs.Prelude.{◌≡◌, ◌≤◌, IfSome, length};
ghost use Rattle.limits.specs.Terms.{basis_found};
ghost use Rattle.pricecheck.specs.Arguments.{number_said, table_asked, Asked};

use limits::terms::{BadTerms, Terms, terms_on};
use std::env::{Env, FillError};
use tables::USUAL_TABLE;

// A number that names no table.
const NO_TABLE: u32 = 0;

// The number that an argument says: it is one digit.
fn number_said(text: &[u8]) -> u32
    ensures { result ≡ number_said text.now }
{
    match text {
        [digit @ b'0'..=b'9'] => u32::from(digit - b'0'),
        _ => NO_TABLE,
    }
}

// The table of a run, by how many arguments there are and the first of them.
fn table_asked(count: usize, first: &[u8]) -> u32
    ensures { result ≡ table_asked count first.now }
{
    match count {
        0 => USUAL_TABLE,
        1 => number_said(first),
        2.. => NO_TABLE,
    }
}

// Reads an argument; none where there are not so many. Of one that is longer than the room, what fits. What it says is the system's; the
// contract says what holds of it.
fn argument<'a>(rt: &impl Env, index: usize, room: &'a mut [u8]) -> Option<&'a [u8]>
    ensures { IfSome result (λ text. length text.now ≤ length room.old) }
{
    match rt.arg(index, room) {
        Ok(length) => Some(&room[..length.min(room.len())]),
        Err(FillError::TooLong) => Some(room),
        Err(FillError::NotPresent) => None,
    }
}

// The terms of the table that the arguments name, or why there are none. There is room for one character more than an argument may have.
pub(crate) fn terms_named(rt: &impl Env) -> Result<Terms<'static>, BadTerms>
    ensures { Asked (basis_found result) }
{
    let has_more = argument(rt, 2, &mut [0u8; 2]).is_some();
    match argument(rt, 1, &mut [0u8; 2]) {
        None => terms_on(table_asked(0, &[])),
        Some(first) => terms_on(table_asked(1 + usize::from(has_more), first)),
    }
}
