//! A slip in hand: it must be receipted or put back.

ghost use Rattle.std.specs.Prelude.{◌≡◌};
ghost use Rattle.gate.specs.Kept.{Steps};
ghost use Rattle.gate.specs.Tokens.{taken, spent, HandedBack};

use crate::desk::Gate;
use checks::Check;
use market::Market;
use terms::{Event, Fill, Refusal};

/// A slip that was taken. It is not `Drop` and not `Copy`: one that is neither receipted nor put back does not compile, nor does one that is receipted twice.
pub struct TakenSlip {
    fill: Fill,
}

/// A slip that was refused, and why.
pub struct Returned {
    pub refusal: Refusal,
    pub slip: TakenSlip,
}

impl TakenSlip {
    /// What was filled.
    pub fn fill(&self) -> Fill
        ensures { result ≡ self.now.fill }
    {
        self.fill
    }
}

/// The slip goes with a call that was accepted, and comes back with one that was refused.
fn spend(slip: TakenSlip, answer: Result<(), Refusal>) -> Result<(), Returned>
    ensures answer { spent result ≡ answer }
    ensures back { HandedBack slip result }
{
    match answer {
        Ok(()) => {
            let TakenSlip { fill: _ } = slip;
            Ok(())
        }
        Err(refusal) => Err(Returned { refusal, slip }),
    }
}

impl<'g, M: Market, C: Check> Gate<'g, M, C> {
    /// Hands out a login's oldest slip.
    pub fn take(&mut self, login: u64) -> Result<TakenSlip, Refusal>
        ensures { Steps M.Market C.Check self.old (Event.Take login (taken result)) self.new }
    {
        let fill = self.take_slip(login)?;
        Ok(TakenSlip { fill })
    }

    /// Receipts a slip that was taken: it goes.
    pub fn receipt(&mut self, slip: TakenSlip) -> Result<(), Returned>
        ensures step { Steps M.Market C.Check self.old (Event.Receipt slip.fill (spent result)) self.new }
        ensures back { HandedBack slip result }
    {
        let answer = self.receipt_slip(slip.fill);
        spend(slip, answer)
    }

    /// Puts a slip that was taken back: it waits as before.
    pub fn put_back(&mut self, slip: TakenSlip) -> Result<(), Returned>
        ensures step { Steps M.Market C.Check self.old (Event.PutBack slip.fill (spent result)) self.new }
        ensures back { HandedBack slip result }
    {
        let answer = self.put_slip_back(slip.fill);
        spend(slip, answer)
    }
}
