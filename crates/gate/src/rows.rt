//! A login's row: who has the login, whether it is held, and whether a slip of it is out.

ghost use Rattle.std.specs.Prelude.{◌≡◌, true, false, cond, ◌&&◌, if◌then◌else◌};
ghost use Rattle.history.specs.State.{is_free, is_open, is_leaving, blank, leaving, with_hold, with_out, first_cause};
ghost use Rattle.gate.specs.Rows.{seen_row, session_of};

use terms::{Reach, first_cause};

/// What a firm has a login with: its acronym and its role, as the checks are told of them, and which kinds a trip sweeps.
#[derive(Clone, Copy)]
pub struct Session {
    pub acronym: u64,
    pub role: u64,
    pub reach: Reach,
}

/// A firm that retires a login is leaving it while a slip still waits.
#[derive(Clone, Copy)]
pub enum Standing {
    Free,
    Open(Session),
    Leaving(Session),
}

/// A hold is its cause, a plain number as it is answered, 0 where there is none. A slip that is out was taken, and is neither receipted nor put back.
#[derive(Clone, Copy)]
pub struct Row {
    pub standing: Standing,
    pub hold: u8,
    pub out: bool,
}

/// The row of a free login.
pub(crate) const BLANK: Row = Row {
    standing: Standing::Free,
    hold: 0,
    out: false,
};

// questions
impl Row {
    pub(crate) fn is_free(&self) -> bool
        ensures { result ≡ is_free (seen_row self.now) }
    {
        matches!(self.standing, Standing::Free)
    }

    pub(crate) fn is_open(&self) -> bool
        ensures { result ≡ is_open (seen_row self.now) }
    {
        matches!(self.standing, Standing::Open(_))
    }

    pub(crate) fn is_leaving(&self) -> bool
        ensures { result ≡ is_leaving (seen_row self.now) }
    {
        matches!(self.standing, Standing::Leaving(_))
    }

    /// What its firm has the login with.
    fn session(&self) -> Option<Session>
        ensures { result ≡ session_of self.now.standing }
    {
        match self.standing {
            Standing::Free => None,
            Standing::Open(session) | Standing::Leaving(session) => Some(session),
        }
    }

    /// The firm that has the login, 0 for none: a number, since it is looked up in tables numbered from 1, where 0 reads as absent.
    pub(crate) fn acronym(&self) -> u64
        ensures { result ≡ (seen_row self.now).acronym }
    {
        self.session().map_or(0, |session| session.acronym)
    }

    /// The role that it was opened with, 0 for none, as the checks are told of it.
    pub(crate) fn role(&self) -> u64
        ensures { result ≡ (seen_row self.now).role }
    {
        self.session().map_or(0, |session| session.role)
    }
}

// changes
impl Row {
    /// A hold keeps its first cause.
    pub(crate) fn hold(&mut self, cause: u8)
        ensures { seen_row self.new ≡ with_hold (first_cause (seen_row self.old).hold cause) (seen_row self.old) }
    {
        self.hold = first_cause(self.hold, cause);
    }

    pub(crate) fn lift(&mut self)
        ensures { seen_row self.new ≡ with_hold 0 (seen_row self.old) }
    {
        self.hold = 0;
    }

    pub(crate) fn set_out(&mut self, out: bool)
        ensures { seen_row self.new ≡ with_out out (seen_row self.old) }
    {
        self.out = out;
    }

    /// An open login is left: it is free where no slip of it waits.
    pub(crate) fn retire(&mut self, none_wait: bool)
        ensures { is_open (seen_row self.old) ≡ true → seen_row self.new ≡ cond none_wait blank (leaving (seen_row self.old)) }
    {
        if none_wait {
            *self = BLANK;
        } else if let Standing::Open(session) = self.standing {
            self.standing = Standing::Leaving(session);
        }
    }

    /// The slip that is out is receipted: the last one frees a login that is leaving.
    pub(crate) fn receipt(&mut self, none_wait: bool)
        ensures { seen_row self.new ≡ (if is_leaving (seen_row self.old) && none_wait then blank else with_out false (seen_row self.old)) }
    {
        if self.is_leaving() && none_wait {
            *self = BLANK;
        } else {
            self.out = false;
        }
    }
}
