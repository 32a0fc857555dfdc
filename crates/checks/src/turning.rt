//! The refusals that a check turns an entry down with.

ghost use Rattle.std.specs.Prelude.{◌≡◌, ◌≤◌};
ghost use Rattle.terms.specs.Refusals.{number};

use terms::{Refusal, TurnDown};

// The number of a refusal as that of a turn-down.
pub(crate) fn turn_down(refusal: Refusal) -> TurnDown
    requires low { 41 ≤ number refusal }
    requires high { number refusal ≤ 59 }
    ensures { result.value ≡ number refusal }
{
    TurnDown::try_from(u64::from(refusal.number())).unwrap()
}
