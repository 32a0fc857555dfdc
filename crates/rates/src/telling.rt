//! The check of rates: the windows of every firm, by the clock.

ghost use Rattle.std.specs.Prelude.{◌≡◌, map, replicate};
ghost use Rattle.std.proofs.Common.{◌∙◌};
ghost use lib.ListN.{length-map};
ghost use Rattle.terms.specs.Tables.{at};
ghost use Rattle.checks.specs.Meaning.{told_public, told_each, told_causes, whose};
ghost use Rattle.rates.specs.Firms.{firm_view, new_firm, rates, rates_lawful};
ghost use Rattle.rates.specs.Told.{AsTold};

use crate::routing::time_after;
use crate::windows::{FirmWindows, Rates};
use checks::{Check, NO_CAUSE, acronym_of, place};
use std::array;
use terms::{Asked, Causes, Notice, TurnDown};

// In place, for the reason that `renew` gives.
fn renew_firms(firms: &mut [FirmWindows; 8])
    ensures { map firm_view firms.new ≡ replicate 8 new_firm }
{
    for firm in firms.iter_mut() {
        firm.renew();
    }
}

impl Rates {
    /// At time 0, without any limit.
    pub fn new() -> Rates
        ensures time { result.time ≡ 0 }
        ensures firms { map firm_view result.firms ≡ replicate 8 new_firm }
    {
        Rates {
            time: 0,
            firms: array::from_fn(|_| FirmWindows::new()),
        }
    }
}

impl Check for Rates {
    ghost meaning = { rates };

    ghost public = { λ s. s.time };

    ghost private = { λ s. map firm_view s.firms };

    ghost lawful = { rates_lawful };

    ghost eight = { λ s. length-map s.firms firm_view ∙ s.eight };

    fn judge(&self, _asked: Asked) -> Result<(), TurnDown> {
        Ok(())
    }

    #[tactic(auto, using(crate::proofs::Notices::firm_steps, crate::proofs::Whole::as_told))]
    fn tell(&mut self, notice: Notice) -> Causes
        ensures shown { self.new.time ≡ told_public rates notice self.old.time }
        ensures own { map firm_view self.new.firms ≡ told_each rates 1 notice self.old.time (map firm_view self.old.firms) }
        ensures trips { result ≡ told_causes rates notice self.old.time (at new_firm (map firm_view self.old.firms) (whose notice)) }
        ensures defined { AsTold result notice self.old.time (map firm_view self.old.firms) }
    {
        // Taken apart: the check does not follow a change of one of the firms beside the clock's.
        let Rates { time: clock, firms } = self;
        let time = *clock;
        *clock = time_after(&notice, time);
        match place(acronym_of(&notice), 8) {
            Some(a) => firms[a].tell(notice, time),
            None => NO_CAUSE,
        }
    }

    // In place: with `*self = Rates::new()` all marks of all windows would be written, which are some 300 kB.
    fn renew(&mut self) {
        self.time = 0;
        renew_firms(&mut self.firms);
    }
}
