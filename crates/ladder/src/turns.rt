// One band of a walk: how far it goes, and how many spreads it carries into the next band.
ghost use Rattle.std.specs.Prelude.{◌≡◌, ◌<◌};
ghost use Rattle.ladder.specs.Arithmetic.{turn_of};

// What a walk does in a band. Neither case is a failure of the other, so it is no Option and no Result.
#[derive(Clone, Copy)]
pub(crate) enum Turn {
    // It ends in the band, so many mils on.
    Ends(u32),
    // It takes all the spreads that the band still has, and so many are left.
    Leaves(u64),
}

// `left` spreads in a band that has `room` mils that way.
pub(crate) fn turn_in(left: u64, spread: u32, room: u32) -> Turn
    requires { 0 < spread }
    ensures { result ≡ turn_of left spread room }
{
    // More spreads than there are mils do not fit. Up to that many, times the spread, have 64 bits.
    if left <= u64::from(room) {
        let mils = left * u64::from(spread);
        if mils <= u64::from(room) {
            return Turn::Ends(mils as u32);
        }
    }
    Turn::Leaves(left - u64::from(room / spread))
}
