// Text that is filled from its end.
#![tactic(auto)]

ghost use Rattle.std.specs.Prelude.{◌≡◌, ◌≤◌, ◌<◌, [], ◌∷◌, length};
ghost use Rattle.text.specs.Decimal.{two_digits, decimal, field};
ghost use Rattle.text.specs.Decimal.{digit as Decimal·digit};

// The character of a digit.
fn digit(d: u64) -> u8
    requires { d < 10 }
    ensures { result ≡ Decimal·digit d }
{
    b'0' + d as u8
}

// A text that is filled from its end: what is written stands from `start` on, and the next part goes in front of it.
#[derive(Drop)]
pub struct Filling<'a> {
    room: &'a mut [u8],
    start: usize,
    ghost within: { start ≤ length room.now },
}

impl<'a> Filling<'a> {
    ghost use Rattle.text.specs.Ending.{Written};

    // Nothing is written yet.
    pub fn new(room: &'a mut [u8]) -> Filling<'a>
        ensures start { result.start ≡ length room.old }
        ensures room { result.room ≡ room.entry }
    {
        let start = room.len();
        Filling { room, start }
    }

    // Where the text starts.
    pub fn start(&self) -> usize
        ensures { result ≡ self.now.start }
    {
        self.start
    }

    // Writes one character.
    fn put(&mut self, character: u8)
        requires { 1 ≤ self.old.start }
        ensures { Written (character ∷ []) self.old self.new }
    {
        self.start -= 1;
        self.room[self.start] = character;
    }

    // Writes a word.
    pub fn put_word(&mut self, word: &[u8])
        requires { length word.now ≤ self.old.start }
        ensures { Written word.now self.old self.new }
    {
        let end = self.start;
        self.start -= word.len();
        self.room[self.start..end].copy_from_slice(word);
    }

    // Writes two digits.
    fn put_pair(&mut self, pair: u64)
        requires below_100 { pair < 100 }
        requires fits { 2 ≤ self.old.start }
        ensures { Written (two_digits pair) self.old self.new }
    {
        self.put(digit(pair % 10));
        self.put(digit(pair / 10));
    }

    // Writes a number in decimal, two digits at a time, which is quicker than one.
    fn put_decimal(&mut self, n: u64)
        requires { length (decimal n) ≤ self.old.start }
        ensures { Written (decimal n) self.old self.new }
    {
        let mut rest = n;
        while rest >= 100 {
            self.put_pair(rest % 100);
            rest /= 100;
        }
        if rest < 10 {
            self.put(digit(rest));
            return;
        }
        self.put_pair(rest);
    }

    // Writes a number in decimal and a character after it.
    pub fn put_field(&mut self, n: u64, after: u8)
        requires { length (field n after) ≤ self.old.start }
        ensures { Written (field n after) self.old self.new }
    {
        self.put(after);
        self.put_decimal(n);
    }
}
