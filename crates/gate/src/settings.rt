//! The clock, values and limits: what the checks go by.

ghost use Rattle.std.specs.Prelude.{◌≡◌, true};
ghost use Rattle.fields.specs.Admits.{Admits};
ghost use Rattle.history.specs.Acts.{Limit as LimitAct};
ghost use Rattle.history.specs.Calls.{refusal};
ghost use Rattle.gate.specs.Kept.{state_of, Steps};

use crate::desk::Gate;
use checks::{Check, put_at};
use fields::{limit_fields, value_fields};
use market::Market;
use terms::{Event, LimitNumbers, Notice, Refusal, Time, ValueNumbers};

impl<'g, M: Market, C: Check> Gate<'g, M, C> {
    /// Sets the clock, which does not go back.
    pub fn tick(&mut self, time: u64) -> Result<(), Refusal>
        ensures { Steps M.Market C.Check self.old (Event.Tick time result) self.new }
    {
        let new = Time::try_from(time)?.number();
        if new < self.time {
            return Err(Refusal::ClockBack);
        }
        self.time = new;
        let _ = self.tell(Notice::Ticked { time });
        Ok(())
    }

    /// Makes known what holds of a series.
    pub fn values(&mut self, series: u64, values: ValueNumbers) -> Result<(), Refusal>
        ensures { Steps M.Market C.Check self.old (Event.Values series values result) self.new }
    {
        value_fields(series, &values)?;
        put_at(&mut self.valued, series, true);
        let _ = self.tell(Notice::Valued { series, values });
        Ok(())
    }

    fn admit_limit(&self, limit: &LimitNumbers) -> Result<(), Refusal>
        ensures { Admits (refusal (state_of M.Market C.Check self.now) (LimitAct limit.now)) (λ _. Unit {0}) result }
    {
        limit_fields(limit)?;
        if self.is_shut(limit.scope) {
            return Err(Refusal::NotOpen);
        }
        Ok(())
    }

    /// Sets a limit for an open login or for a firm.
    pub fn limit(&mut self, limit: LimitNumbers) -> Result<(), Refusal>
        ensures { Steps M.Market C.Check self.old (Event.Limit limit result) self.new }
    {
        self.admit_limit(&limit)?;
        let acronym = self.firm_of(limit.scope);
        let _ = self.tell(Notice::Limited { acronym, limit });
        Ok(())
    }
}
