// Input that is read in pieces, and failures that are said on standard error: what the programs share.
#![tactic(auto)]

ghost use Rattle.std.specs.Prelude.{◌≡◌, ◌≤◌, ◌<◌, T, IfOk, length};
ghost use Rattle.pieces.specs.Input.{read_failed, clamp_len};

use std::io;
use std::io::{Read, Write};

// What came of a piece: how many bytes, and whether a read failed after them. Not a `Result`, since both hold at once: bytes came, and then
// a read failed.
#[derive(Clone, Copy)]
pub struct Input {
    pub bytes: usize,
    pub has_failed: bool,
}

// What a read answered: how many bytes came, at most the room; or that it failed.
fn input_of(got: io::Result<usize>, part: &[u8]) -> io::Result<usize>
    ensures bytes { IfOk result (λ came. came ≡ clamp_len got (length part.now)) }
    ensures failed { read_failed result ≡ read_failed got }
{
    Ok(got?.min(part.len()))
}

// Says on standard error what a program could not read or write, and why, in the C library's words. std puts the error's number after them,
// as in " (os error 9)", which is left out where there is memory for the text.
pub fn say_failure(rt: &(impl Eprint + AllocGlobal), program: &str, what: &str, error: io::Error) {
    let _ = match error.to_string(rt.alloc()) {
        Ok(text) => match text.as_str().split_once(" (os error ") {
            Some((why, _)) => eprintln!(rt; "{program}: {what}: {why}"),
            None => eprintln!(rt; "{program}: {what}: {text}"),
        },
        Err(_) => eprintln!(rt; "{program}: {what}: {error}"),
    };
}

// Reads once. What a read answers is the system's; the contract says what holds of it: no more bytes came than there is room.
fn read_some(reader: &mut impl Read, part: &mut [u8]) -> io::Result<usize>
    ensures { IfOk result (λ came. came ≤ length part.old) }
{
    let got = reader.read(part);
    input_of(got, part)
}

// Reads until the piece is full, the input ends or a read fails. What comes is the system's; the contract says what holds of it: a piece
// that came whole came without a failure.
pub fn fill(
    rt: &(impl Eprint + AllocGlobal),
    program: &str,
    reader: &mut impl Read,
    piece: &mut [u8],
) -> Input
    ensures inside { result.bytes ≤ length piece.old }
    ensures failed { T result.has_failed → result.bytes < length piece.old }
{
    let mut bytes = 0;
    while bytes < piece.len() {
        match read_some(reader, &mut piece[bytes..]) {
            Ok(0) => break,
            Ok(came) => bytes += came,
            Err(error) => {
                say_failure(rt, program, "standard input", error);
                return Input {
                    bytes,
                    has_failed: true,
                };
            }
        }
    }
    Input {
        bytes,
        has_failed: false,
    }
}
