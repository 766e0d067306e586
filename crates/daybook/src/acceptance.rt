// The tests that turn a close or an event away.
ghost use Rattle.std.specs.Prelude.{◌≡◌};
ghost use Rattle.tables.specs.Named.{phase1};
ghost use Rattle.ladder.specs.Ladder.{ladder};
ghost use Rattle.facts.specs.Lists.{holds};
ghost use Rattle.questions.specs.Checks.{lies_outside};
ghost use Rattle.daybook.specs.Accepted.{meet};

use ladder::named::phase_1;
use questions::Reference;

// Whether a reference is present, but outside the ladder's ends.
pub(crate) fn lies_outside(reference: Reference) -> bool
    ensures { result ≡ lies_outside (ladder phase1) reference }
{
    reference.lies_outside(&phase_1())
}

// Whether a price is on the ladder.
pub(crate) fn is_on_ladder(price: u32) -> bool
    ensures { result ≡ holds price (ladder phase1) }
{
    phase_1().holds(price)
}

// Whether there are both, and the bid is not below the ask.
pub(crate) fn do_meet(bid: Reference, ask: Reference) -> bool
    ensures { result ≡ meet bid ask }
{
    matches!((bid, ask), (Reference::Price(bid), Reference::Price(ask)) if ask <= bid)
}
