//! Size: no entry is larger than the limit of its login or of its firm.

ghost use Rattle.std.specs.Prelude.{◌≡◌, length, replicate, ◌==◌};
ghost use Rattle.terms.specs.declared.kinds.LimitKind.TheVariants.{Size as OfSize};
ghost use Rattle.terms.specs.Kinds.{limit_kind_number};
ghost use Rattle.checks.specs.Meaning.{turned_down};
ghost use Rattle.checks.specs.Sizes.{exceeds as exceeds_by, in_force, unlimited, sized, set_for, size_after, size, size_lawful};

use crate::checking::{Check, NO_CAUSE, acronym_of};
use crate::tables::{place, put_at, read_at};
use crate::turning::turn_down;
use terms::{Asked, Causes, LimitKind, Notice, Refusal, ScopeNumber, Ticket, TurnDown};

/// The size limits of a firm: its own, and those of the logins.
#[derive(Clone, Copy, Debug, PartialEq, Eq)]
pub struct SizeLimits {
    own: Option<u64>,
    logins: [Option<u64>; 24],
}

// Whether a limit is set, and lies below the contracts.
fn exceeds(limit: Option<u64>, contracts: u64) -> bool
    ensures { result ≡ exceeds_by limit contracts }
{
    limit.is_some_and(|limit| contracts > limit)
}

// A limit as it is sent: 0 is none.
fn in_force(limit: u64) -> Option<u64>
    ensures { result ≡ in_force limit }
{
    (limit != 0).then_some(limit)
}

// Whether a limit of this kind is one of size.
fn is_size(kind: u64) -> bool
    ensures { result ≡ (kind == limit_kind_number OfSize) }
{
    LimitKind::try_from(kind) == Ok(LimitKind::Size)
}

impl SizeLimits {
    fn none() -> SizeLimits
        ensures { result ≡ unlimited }
    {
        SizeLimits {
            own: None,
            logins: [None; 24],
        }
    }

    fn judge(&self, ticket: &Ticket) -> Result<(), TurnDown>
        ensures { turned_down result ≡ sized ticket.now self.now }
    {
        let login = read_at(&self.logins, ticket.login, None);
        if exceeds(self.own, ticket.contracts) || exceeds(login, ticket.contracts) {
            return Err(turn_down(Refusal::TooLarge));
        }
        Ok(())
    }

    fn set(&mut self, scope: ScopeNumber, limit: Option<u64>)
        ensures { self.new ≡ set_for scope limit self.old }
    {
        match scope {
            ScopeNumber::Login(login) => put_at(&mut self.logins, login, limit),
            ScopeNumber::Acronym(_) => self.own = limit,
        }
    }

    // Opening and closing a login drop its limit; only a limit changes the firm's own.
    fn tell(&mut self, notice: Notice)
        ensures { self.new ≡ size_after notice self.old }
    {
        match notice {
            Notice::Opened { login, .. } | Notice::Closed { login, .. } => {
                self.set(ScopeNumber::Login(login), None);
            }
            Notice::Limited { limit, .. } if is_size(limit.kind) => {
                self.set(limit.scope, in_force(limit.limit));
            }
            _ => {}
        }
    }
}

/// The check of size: 41 for an entry of more contracts than the limit of its login or of its firm.
#[derive(Drop)]
pub struct Size {
    limits: [SizeLimits; 8],
    ghost eight: { length limits ≡ 8 },
}

impl Size {
    /// Without any limit.
    pub fn new() -> Size
        ensures { result.limits ≡ replicate 8 unlimited }
    {
        Size {
            limits: [SizeLimits::none(); 8],
        }
    }
}

impl Check for Size {
    ghost meaning = { size };

    ghost public = { λ s. tt };

    ghost private = { λ s. s.limits };

    ghost lawful = { size_lawful };

    ghost eight = { λ s. s.eight };

    #[tactic(auto, using(crate::proofs::Limits::sized_at, crate::proofs::Limits::sized_past))]
    fn judge(&self, asked: Asked) -> Result<(), TurnDown> {
        match place(asked.acronym, 8) {
            Some(a) => self.limits[a].judge(&asked.ticket),
            None => Ok(()),
        }
    }

    #[tactic(auto, using(crate::proofs::Limits::told_here, crate::proofs::Limits::told_none, crate::proofs::Told::same_either))]
    fn tell(&mut self, notice: Notice) -> Causes {
        if let Some(a) = place(acronym_of(&notice), 8) {
            self.limits[a].tell(notice);
        }
        NO_CAUSE
    }

    fn renew(&mut self) {
        self.limits = [SizeLimits::none(); 8];
    }
}
