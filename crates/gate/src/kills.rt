//! Kill and release.

ghost use Rattle.std.specs.Prelude.{◌≡◌};
ghost use Rattle.terms.specs.Kinds.{reach_number, flag_number};
ghost use Rattle.fields.specs.Admits.{Admits};
ghost use Rattle.history.specs.Acts.{Kill as KillAct, Release as ReleaseAct};
ghost use Rattle.history.specs.Calls.{refusal};
ghost use Rattle.gate.specs.Kept.{state_of, Steps};

use crate::cuts::Cut;
use crate::desk::Gate;
use checks::Check;
use fields::{Kill, scope_fields};
use market::Market;
use terms::{Event, Notice, Refusal, ScopeNumber};

/// The cause of a hold by a kill: a plain number, as it is answered.
const KILLED: u8 = 60;

impl<'g, M: Market, C: Check> Gate<'g, M, C> {
    fn admit_kill(&self, scope: ScopeNumber, reach: u64, block: u64) -> Result<Kill, Refusal>
        ensures { Admits (refusal (state_of M.Market C.Check self.now) (KillAct scope reach block)) (λ k. (reach_number k.reach ≡ reach) × (flag_number k.block ≡ block)) result }
    {
        let kill = Kill::from_numbers(scope, reach, block)?;
        if self.is_shut(scope) {
            return Err(Refusal::NotOpen);
        }
        Ok(kill)
    }

    /// Takes off what a scope's open logins rest within a reach and, with block, holds the scope; the contracts that were cancelled.
    pub fn kill(&mut self, scope: ScopeNumber, reach: u64, block: u64) -> Result<u32, Refusal>
        ensures { Steps M.Market C.Check self.old (Event.Kill scope reach block result) self.new }
    {
        let kill = self.admit_kill(scope, reach, block)?;
        let cancelled = self.sweep_all(Cut::Kill {
            scope,
            reach: kill.reach,
        });
        if kill.block {
            self.hold_scope(scope, KILLED);
        }
        Ok(cancelled)
    }

    /// Lifts the hold of a scope, if there is one.
    pub fn release(&mut self, scope: ScopeNumber) -> Result<(), Refusal>
        ensures { Steps M.Market C.Check self.old (Event.Release scope result) self.new }
    {
        scope_fields(scope)?;
        if self.is_shut(scope) {
            return Err(Refusal::NotOpen);
        }
        let acronym = self.firm_of(scope);
        self.lift_scope(scope);
        let _ = self.tell(Notice::Released { acronym, scope });
        Ok(())
    }
}
