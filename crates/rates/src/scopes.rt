//! The three windows of one scope.

ghost use Rattle.std.specs.Prelude.{◌≡◌, ◌==◌};
ghost use Rattle.rates.specs.Runs.{clearing, acted};
ghost use Rattle.rates.specs.Views.{view};
ghost use Rattle.rates.specs.Scopes.{scope_view, new_scope, scope_acted, scope_answered, scope_told, scope_cause, counted_by, set_by, kind_of, cause_or};

use crate::window::Window;
use crate::windows::{Rate, ScopeWindows};
use terms::{LimitKind, LimitNumbers, Notice, Refusal};

impl Rate {
    // Whether a limit of this kind is one for its windows.
    fn goes_by(self, kind: u64) -> bool
        ensures { result ≡ (kind == kind_of self) }
    {
        let own = match self {
            Rate::Entries => LimitKind::Entries,
            Rate::Fills => LimitKind::Fills,
            Rate::TurnDowns => LimitKind::TurnDowns,
        };
        LimitKind::try_from(kind) == Ok(own)
    }

    // The cause that it gives where its window trips, and else 0: causes are plain numbers, as they are sent and as the meaning has them.
    fn cause(self, trips: bool) -> u8
        ensures { result ≡ cause_or self trips 0 }
    {
        if trips { self as u8 } else { 0 }
    }
}

impl Window {
    // A limit was set for the scope of a window: it is the window's own, or of another kind, and clears it all the same.
    fn take(&mut self, rate: Rate, limit: LimitNumbers)
        ensures { view self.new ≡ acted (set_by limit rate) (view self.old) }
    {
        if rate.goes_by(limit.kind) {
            self.limit_to(limit.limit, limit.interval);
        } else {
            self.clear();
        }
    }
}

impl ScopeWindows {
    pub(crate) fn new() -> ScopeWindows
        ensures { scope_view result ≡ new_scope }
    {
        ScopeWindows {
            entries: Window::new(),
            fills: Window::new(),
            turndowns: Window::new(),
        }
    }

    // Without a limit, and with nothing counted.
    pub(crate) fn renew(&mut self)
        ensures { scope_view self.new ≡ new_scope }
    {
        self.entries.limit_to(0, 0);
        self.fills.limit_to(0, 0);
        self.turndowns.limit_to(0, 0);
    }

    fn clear(&mut self)
        ensures { scope_view self.new ≡ scope_acted (λ k. clearing) (scope_view self.old) }
    {
        self.entries.clear();
        self.fills.clear();
        self.turndowns.clear();
    }

    // A limit of any kind clears all three windows; the one of its kind takes it.
    fn limit_to(&mut self, limit: LimitNumbers)
        ensures { scope_view self.new ≡ scope_acted (set_by limit) (scope_view self.old) }
    {
        self.entries.take(Rate::Entries, limit);
        self.fills.take(Rate::Fills, limit);
        self.turndowns.take(Rate::TurnDowns, limit);
    }

    fn count(&mut self, rate: Rate, time: u64, amount: u64) -> u8
        ensures cause { result ≡ scope_answered (λ k. counted_by rate k time amount) (scope_view self.old) }
        ensures next { scope_view self.new ≡ scope_acted (λ k. counted_by rate k time amount) (scope_view self.old) }
    {
        let trips = match rate {
            Rate::Entries => self.entries.count(time, amount),
            Rate::Fills => self.fills.count(time, amount),
            Rate::TurnDowns => self.turndowns.count(time, amount),
        };
        rate.cause(trips)
    }

    // What a notice that is for the scope does to its windows, and the cause that it gives.
    pub(crate) fn tell(&mut self, notice: Notice, time: u64) -> u8
        ensures cause { result ≡ scope_cause time notice (scope_view self.old) }
        ensures next { scope_view self.new ≡ scope_told time notice (scope_view self.old) }
    {
        match notice {
            Notice::Opened { .. } | Notice::Closed { .. } => self.renew(),
            Notice::Limited { limit, .. } => self.limit_to(limit),
            Notice::Released { .. } => self.clear(),
            Notice::Entered { .. } => return self.count(Rate::Entries, time, 1),
            Notice::TurnedDown { number, .. } if number == Refusal::LimitPrice.number() => {
                return self.count(Rate::TurnDowns, time, 1);
            }
            Notice::Filled { fill, .. } => return self.count(Rate::Fills, time, fill.contracts),
            _ => {}
        }
        0
    }
}
