//! Telling the checks, and what that trips.

ghost use Rattle.std.specs.Prelude.{◌≡◌};
ghost use Rattle.market.specs.Book.{totals};
ghost use Rattle.history.specs.Trips.{in_trip, trip as tripped, noticed, effect_of, causes_of, tell as told};
ghost use Rattle.gate.specs.Kept.{state_of};

use crate::cuts::Cut;
use crate::desk::Gate;
use checks::{Check, NO_CAUSE};
use market::Market;
use terms::{Causes, Effect, Notice, ScopeNumber};

impl<'g, M: Market, C: Check> Gate<'g, M, C> {
    /// Holds and sweeps what the causes of a login trip; the contracts that were cancelled.
    fn trip(&mut self, login: u64, causes: Causes) -> u32
        ensures sum { result ≡ totals (in_trip (state_of M.Market C.Check self.old) login causes) (M.Market.book self.old.market.now).resting }
        ensures after { state_of M.Market C.Check self.new ≡ tripped login causes (state_of M.Market C.Check self.old) }
    {
        if causes == NO_CAUSE {
            return 0;
        }
        let firm = self.row(login).acronym();
        let cancelled = self.sweep_all(Cut::Trip { login, causes });
        self.hold_scope(ScopeNumber::Login(login), causes.login);
        self.hold_scope(ScopeNumber::Acronym(firm), causes.acronym);
        cancelled
    }

    pub(crate) fn tell(&mut self, notice: Notice) -> Causes
        ensures causes { result ≡ causes_of notice (state_of M.Market C.Check self.old) }
        ensures after { state_of M.Market C.Check self.new ≡ told notice (state_of M.Market C.Check self.old) }
    {
        self.checks.tell(notice)
    }

    /// Tells the checks of something that a login did, and does what that trips.
    pub(crate) fn notice(&mut self, login: u64, notice: Notice) -> Effect
        ensures effect { result ≡ effect_of login notice (state_of M.Market C.Check self.old) }
        ensures after { state_of M.Market C.Check self.new ≡ noticed login notice (state_of M.Market C.Check self.old) }
    {
        let causes = self.tell(notice);
        let cancelled = self.trip(login, causes);
        Effect { causes, cancelled }
    }
}
