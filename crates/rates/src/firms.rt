//! The windows of a firm: its own, and those of the logins.

ghost use Rattle.std.specs.Prelude.{◌≡◌, map, replicate, if◌then◌else◌};
ghost use Rattle.terms.specs.Tables.{at};
ghost use Rattle.checks.specs.Places.{numbered};
ghost use Rattle.rates.specs.Scopes.{scope_view, new_scope, scope_told, scope_cause};
ghost use Rattle.rates.specs.Firms.{login_of, for_firm, firm_view, new_firm, login_told, firm_told, firm_causes};

use crate::routing::{for_firm, login_of};
use crate::windows::{FirmWindows, ScopeWindows};
use checks::place;
use std::array;
use terms::{Causes, Notice};

// A notice to the windows of a firm as a whole.
fn tell_own(own: &mut ScopeWindows, notice: Notice, time: u64) -> u8
    ensures cause { result ≡ (if for_firm notice then scope_cause time notice (scope_view own.old) else 0) }
    ensures next { scope_view own.new ≡ (if for_firm notice then scope_told time notice (scope_view own.old) else scope_view own.old) }
{
    if for_firm(&notice) {
        own.tell(notice, time)
    } else {
        0
    }
}

// A notice to the windows of the logins: those of one login at most.
#[tactic(auto, using(crate::proofs::Notices::login_steps))]
fn tell_login(logins: &mut [ScopeWindows; 24], notice: Notice, time: u64) -> u8
    ensures cause { result ≡ scope_cause time notice (at new_scope (map scope_view logins.old) (login_of notice)) }
    ensures next { map scope_view logins.new ≡ numbered (login_told time notice) 1 (map scope_view logins.old) }
{
    match place(login_of(&notice), 24) {
        Some(i) => logins[i].tell(notice, time),
        None => 0,
    }
}

// In place, for the reason that `renew` of `Rates` gives.
fn renew_logins(logins: &mut [ScopeWindows; 24])
    ensures { map scope_view logins.new ≡ replicate 24 new_scope }
{
    for scope in logins.iter_mut() {
        scope.renew();
    }
}

impl FirmWindows {
    pub(crate) fn new() -> FirmWindows
        ensures { firm_view result ≡ new_firm }
    {
        FirmWindows {
            own: ScopeWindows::new(),
            logins: array::from_fn(|_| ScopeWindows::new()),
        }
    }

    pub(crate) fn renew(&mut self)
        ensures { firm_view self.new ≡ new_firm }
    {
        self.own.renew();
        renew_logins(&mut self.logins);
    }

    pub(crate) fn tell(&mut self, notice: Notice, time: u64) -> Causes
        ensures trips { result ≡ firm_causes time notice (firm_view self.old) }
        ensures next { firm_view self.new ≡ firm_told time notice (firm_view self.old) }
    {
        let acronym = tell_own(&mut self.own, notice, time);
        let login = tell_login(&mut self.logins, notice, time);
        Causes { login, acronym }
    }
}
