//! Which windows a notice is for, and the time that it leaves.

ghost use Rattle.std.specs.Prelude.{◌≡◌};
ghost use Rattle.rates.specs.Firms.{login_in, is_firm, login_of, for_firm, time_after};

use terms::{Notice, ScopeNumber};

// The login of a scope, 0 where it is a firm. A number, since it is looked up in a table numbered from 1, where 0 reads as absent.
fn login_in(scope: ScopeNumber) -> u64
    ensures { result ≡ login_in scope }
{
    match scope {
        ScopeNumber::Login(login) => login,
        ScopeNumber::Acronym(_) => 0,
    }
}

fn is_firm(scope: ScopeNumber) -> bool
    ensures { result ≡ is_firm scope }
{
    matches!(scope, ScopeNumber::Acronym(_))
}

// The login whose windows a notice is for, 0 for none, which no table has.
pub(crate) fn login_of(notice: &Notice) -> u64
    ensures { result ≡ login_of notice.now }
{
    match notice {
        Notice::Ticked { .. } | Notice::Valued { .. } => 0,
        Notice::Opened { login, .. } | Notice::Closed { login, .. } => *login,
        Notice::Limited { limit, .. } => login_in(limit.scope),
        Notice::Released { scope, .. } => login_in(*scope),
        Notice::Entered { asked } | Notice::TurnedDown { asked, .. } => asked.ticket.login,
        Notice::Filled { fill, .. } => fill.login,
    }
}

// Whether a notice is for the windows of the firm as a whole.
pub(crate) fn for_firm(notice: &Notice) -> bool
    ensures { result ≡ for_firm notice.now }
{
    match notice {
        Notice::Ticked { .. } | Notice::Valued { .. } => false,
        Notice::Opened { .. } | Notice::Closed { .. } => false,
        Notice::Limited { limit, .. } => is_firm(limit.scope),
        Notice::Released { scope, .. } => is_firm(*scope),
        Notice::Entered { .. } | Notice::TurnedDown { .. } | Notice::Filled { .. } => true,
    }
}

// The time that a notice leaves.
pub(crate) fn time_after(notice: &Notice, time: u64) -> u64
    ensures { result ≡ time_after notice.now time }
{
    match notice {
        Notice::Ticked { time } => *time,
        _ => time,
    }
}
