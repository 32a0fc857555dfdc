//! Rows and holds: what a login and a firm stand as, held and released.

ghost use Rattle.std.specs.Prelude.{◌≡◌, true};
ghost use Rattle.history.specs.State.{row as row_of, hold_of, with_hold, with_row, with_out};
ghost use Rattle.history.specs.Scopes.{hold_scope, lift_scope, shut, scope_acronym};
ghost use Rattle.gate.specs.Kept.{state_of};
ghost use Rattle.gate.specs.Rows.{seen_row};

use crate::desk::Gate;
use crate::rows::{BLANK, Row};
use checks::{Check, place, put_at, read_at};
use market::Market;
use terms::{Login, ScopeNumber, first_cause};

const LOGINS: usize = 24;

impl<'g, M: Market, C: Check> Gate<'g, M, C> {
    /// The row of a login; a number that is no login's has that of a free one.
    pub fn row(&self, login: u64) -> Row
        ensures { seen_row result ≡ row_of (state_of M.Market C.Check self.now) login }
    {
        read_at(&self.rows, login, BLANK)
    }

    /// The cause of a firm's hold, 0 for none.
    pub(crate) fn hold_of(&self, acronym: u64) -> u8
        ensures { result ≡ hold_of (state_of M.Market C.Check self.now) acronym }
    {
        read_at(&self.holds, acronym, 0)
    }

    /// Whether the scope is a login that is not open.
    pub(crate) fn is_shut(&self, scope: ScopeNumber) -> bool
        ensures { result ≡ shut (state_of M.Market C.Check self.now) scope }
    {
        match scope {
            ScopeNumber::Login(login) => !self.row(login).is_open(),
            ScopeNumber::Acronym(_) => false,
        }
    }

    /// The firm whose scope it is.
    pub(crate) fn firm_of(&self, scope: ScopeNumber) -> u64
        ensures { result ≡ scope_acronym (state_of M.Market C.Check self.now) scope }
    {
        match scope {
            ScopeNumber::Login(login) => self.row(login).acronym(),
            ScopeNumber::Acronym(acronym) => acronym,
        }
    }

    // Holding and lifting stand apart, by login and by firm: a row that a closure changes is known only by what the closure ensures, which is longer than both.
    fn hold_login(&mut self, login: u64, cause: u8)
        ensures { state_of M.Market C.Check self.new ≡ hold_scope (ScopeNumber.Login login) cause (state_of M.Market C.Check self.old) }
    {
        if let Some(at) = place(login, LOGINS) {
            self.rows[at].hold(cause);
        }
    }

    fn lift_login(&mut self, login: u64)
        ensures { state_of M.Market C.Check self.new ≡ lift_scope (ScopeNumber.Login login) (state_of M.Market C.Check self.old) }
    {
        if let Some(at) = place(login, LOGINS) {
            self.rows[at].lift();
        }
    }

    /// Holds a scope, by its first cause.
    pub(crate) fn hold_scope(&mut self, scope: ScopeNumber, cause: u8)
        ensures { state_of M.Market C.Check self.new ≡ hold_scope scope cause (state_of M.Market C.Check self.old) }
    {
        match scope {
            ScopeNumber::Login(login) => self.hold_login(login, cause),
            ScopeNumber::Acronym(acronym) => {
                let hold = first_cause(self.hold_of(acronym), cause);
                put_at(&mut self.holds, acronym, hold);
            }
        }
    }

    /// Lifts the hold of a scope.
    pub(crate) fn lift_scope(&mut self, scope: ScopeNumber)
        ensures { state_of M.Market C.Check self.new ≡ lift_scope scope (state_of M.Market C.Check self.old) }
    {
        match scope {
            ScopeNumber::Login(login) => self.lift_login(login),
            ScopeNumber::Acronym(acronym) => put_at(&mut self.holds, acronym, 0),
        }
    }

    /// Notes that a slip of a login is out, or that it is no more.
    pub(crate) fn set_out(&mut self, login: Login, out: bool)
        ensures { state_of M.Market C.Check self.new ≡ with_row login.value (with_out out (row_of (state_of M.Market C.Check self.old) login.value)) (state_of M.Market C.Check self.old) }
    {
        self.rows[login.index()].set_out(out);
    }
}
