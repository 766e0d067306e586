// Numbers in bytes: 4 bytes each, little-endian, which is the lowest first. Records, such as questions and answers, are read and written with
// these.
#![tactic(auto)]

ghost use Rattle.std.specs.Prelude.{◌≡◌, ◌+◌, ◌≤◌, length};
ghost use Rattle.little_endian.specs.Numbers.{number, four_bytes};

// The number of the four bytes from a byte on.
pub fn number_at(s: &[u8], at: usize) -> u32
    requires { at + 4 ≤ length s.now }
    ensures { result ≡ number at s.now }
{
    u32::from_le_bytes([s[at], s[at + 1], s[at + 2], s[at + 3]])
}

// Writes the four bytes of a number.
pub fn put(part: &mut [u8], x: u32)
    requires { length part.old ≡ 4 }
    ensures { part.new ≡ four_bytes x }
{
    part.copy_from_slice(&x.to_le_bytes());
}
