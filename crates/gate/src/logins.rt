//! Opening and retiring logins.

ghost use Rattle.std.specs.Prelude.{◌≡◌};
ghost use Rattle.terms.specs.Kinds.{reach_number};
ghost use Rattle.market.specs.Book.{waiting_of};
ghost use Rattle.fields.specs.Admits.{Admits};
ghost use Rattle.history.specs.State.{nothing_waits};
ghost use Rattle.history.specs.Acts.{Open as OpenAct, Retire as RetireAct};
ghost use Rattle.history.specs.Calls.{refusal};
ghost use Rattle.gate.specs.Kept.{state_of, Steps};

use crate::desk::Gate;
use crate::rows::{Row, Session, Standing};
use checks::Check;
use fields::Opening;
use market::Market;
use terms::{Event, Login, Notice, Reach, Refusal};

impl<'g, M: Market, C: Check> Gate<'g, M, C> {
    /// Whether no slip waits for a login.
    pub(crate) fn none_wait(&self, login: Login) -> bool
        ensures { result ≡ nothing_waits (waiting_of (M.Market.book self.now.market.now) login.value) }
    {
        self.market.first_slip(login).is_none()
    }

    fn admit_open(
        &self,
        login: u64,
        acronym: u64,
        role: u64,
        reach: u64,
    ) -> Result<Opening, Refusal>
        ensures { Admits (refusal (state_of M.Market C.Check self.now) (OpenAct login acronym role reach)) (λ o. (o.login.value ≡ login) × (reach_number o.reach ≡ reach)) result }
    {
        let opening = Opening::from_numbers(login, acronym, role, reach)?;
        let row = self.row(login);
        if row.is_open() {
            return Err(Refusal::Taken);
        }
        if row.is_leaving() {
            return Err(Refusal::Leaving);
        }
        Ok(opening)
    }

    /// Gives a free login to a firm.
    pub fn open(&mut self, login: u64, acronym: u64, role: u64, reach: u64) -> Result<(), Refusal>
        ensures { Steps M.Market C.Check self.old (Event.Open login acronym role reach result) self.new }
    {
        let opening = self.admit_open(login, acronym, role, reach)?;
        self.rows[opening.login.index()] = Row {
            standing: Standing::Open(Session {
                acronym,
                role,
                reach: opening.reach,
            }),
            hold: 0,
            out: false,
        };
        let _ = self.tell(Notice::Opened {
            acronym,
            login,
            role,
            reach,
        });
        Ok(())
    }

    fn admit_retire(&self, login: u64) -> Result<Login, Refusal>
        ensures { Admits (refusal (state_of M.Market C.Check self.now) (RetireAct login)) (λ l. l.value ≡ login) result }
    {
        let named = Login::try_from(login)?;
        if !self.row(login).is_open() {
            return Err(Refusal::NotOpen);
        }
        Ok(named)
    }

    /// Takes off all that a login rests, and frees it, at once or with the last of its slips; the contracts that were cancelled.
    pub fn retire(&mut self, login: u64) -> Result<u32, Refusal>
        ensures { Steps M.Market C.Check self.old (Event.Retire login result) self.new }
    {
        let leaver = self.admit_retire(login)?;
        let acronym = self.row(login).acronym();
        let cancelled = self.market.sweep(leaver, Reach::Both);
        let settled = self.none_wait(leaver);
        self.rows[leaver.index()].retire(settled);
        let _ = self.tell(Notice::Closed { acronym, login });
        Ok(cancelled)
    }
}
