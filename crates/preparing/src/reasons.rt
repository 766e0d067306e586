// Why a question has no range, by its number.
ghost use Rattle.std.specs.Prelude.{◌≡◌};
ghost use Rattle.preparing.specs.declared.Unprepared.TheVariants.{Refused};
ghost use Rattle.preparing.specs.Numbers.{refusal_number, unprepared_number};

use super::Unprepared;
use ranges::Refusal;

// The number for bytes that are no question.
pub const WRONG_LENGTH: u32 = 1;

// The number of a refusal.
pub fn refusal_number(refusal: Refusal) -> u32
    ensures { result ≡ refusal_number refusal }
{
    refusal as u32
}

impl Unprepared {
    // The number.
    pub fn number(self) -> u32
        ensures { result ≡ unprepared_number self }
    {
        match self {
            Unprepared::WrongLength => WRONG_LENGTH,
            Unprepared::WithBadTerms(bad) => bad.number(),
            Unprepared::Refused(refusal) => refusal_number(refusal),
        }
    }
}

impl From<Refusal> for Unprepared {
    ghost from_gives = { λ refusal why. why ≡ Refused refusal };

    fn from(refusal: Refusal) -> Unprepared {
        Unprepared::Refused(refusal)
    }
}
