//! Sweeping the logins of a cut, one after another.

ghost use Rattle.std.specs.Prelude.{◌≡◌, ◌≤◌, ◌&&◌, ◌||◌, ◌==◌};
ghost use Rattle.std.specs.Option.{option_map};
ghost use Rattle.terms.specs.Kinds.{reach_number};
ghost use Rattle.market.specs.Book.{totals, taken_off};
ghost use Rattle.market.specs.Sweeps.{in_cut, swept_up_to, swept_sum};
ghost use Rattle.history.specs.State.{row as row_of, with_book, nonzero};
ghost use Rattle.history.specs.Scopes.{in_scope};
ghost use Rattle.gate.specs.Kept.{state_of};
ghost use Rattle.gate.specs.Cuts.{cut_in};

use crate::cuts::Cut;
use crate::desk::Gate;
use crate::rows::Standing;
use checks::Check;
use market::Market;
use terms::{Causes, Login, Reach, ScopeNumber};

impl<'g, M: Market, C: Check> Gate<'g, M, C> {
    /// Whether a login is in a scope.
    fn in_scope(&self, scope: ScopeNumber, login: u64) -> bool
        ensures { result ≡ in_scope (state_of M.Market C.Check self.now) scope login }
    {
        match scope {
            ScopeNumber::Login(named) => login == named,
            ScopeNumber::Acronym(acronym) => self.row(login).acronym() == acronym,
        }
    }

    /// Whether a trip of another login, or of its firm, sweeps a login.
    fn is_tripped(&self, tripped: u64, causes: Causes, login: u64) -> bool
        ensures { result ≡ ((nonzero causes.login && login == tripped) || (nonzero causes.acronym && (row_of (state_of M.Market C.Check self.now) login).acronym == (row_of (state_of M.Market C.Check self.now) tripped).acronym)) }
    {
        let firm = self.row(tripped).acronym();
        (causes.login != 0 && login == tripped)
            || (causes.acronym != 0 && self.row(login).acronym() == firm)
    }

    /// The reach within which a cut sweeps a login.
    fn reach_of(&self, cut: Cut, login: u64) -> Option<Reach>
        ensures { option_map reach_number result ≡ cut_in (state_of M.Market C.Check self.now) cut login }
    {
        let row = self.row(login);
        let Standing::Open(session) = row.standing else {
            return None;
        };
        match cut {
            Cut::Kill { scope, reach } => {
                if self.in_scope(scope, login) {
                    return Some(reach);
                }
            }
            Cut::Trip {
                login: tripped,
                causes,
            } => {
                if self.is_tripped(tripped, causes, login) {
                    return Some(session.reach);
                }
            }
        }
        None
    }

    /// Sweeps a login, if the cut does; the contracts that were cancelled.
    fn sweep_login(&mut self, cut: Cut, login: u64) -> u32
        requires { (1 ≤ login) × (login ≤ 24) }
        ensures sum { result ≡ totals (in_cut (cut_in (state_of M.Market C.Check self.old) cut) login) (M.Market.book self.old.market.now).resting }
        ensures small { result ≤ 1048560 }
        ensures after { state_of M.Market C.Check self.new ≡ with_book (taken_off (in_cut (cut_in (state_of M.Market C.Check self.old) cut) login) (M.Market.book self.old.market.now)) (state_of M.Market C.Check self.old) }
    {
        let Some(reach) = self.reach_of(cut, login) else {
            return 0;
        };
        let Ok(login) = Login::try_from(login) else {
            return 0;
        };
        self.market.sweep(login, reach)
    }

    /// Sweeps all logins of a cut; the contracts that were cancelled.
    pub(crate) fn sweep_all(&mut self, cut: Cut) -> u32
        ensures sum { result ≡ swept_sum (cut_in (state_of M.Market C.Check self.old) cut) 24 (M.Market.book self.old.market.now) }
        ensures after { state_of M.Market C.Check self.new ≡ with_book (swept_up_to (cut_in (state_of M.Market C.Check self.old) cut) 24 (M.Market.book self.old.market.now)) (state_of M.Market C.Check self.old) }
    {
        let mut sum = 0;
        // A loop, since each turn changes the market.
        for login in 1..=24 {
            sum += self.sweep_login(cut, login);
        }
        sum
    }
}
