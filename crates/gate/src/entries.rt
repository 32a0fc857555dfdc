//! Entries: entered and cancelled.

ghost use Rattle.std.specs.Prelude.{◌≡◌, false};
ghost use Rattle.terms.specs.Tables.{at};
ghost use Rattle.market.specs.Seen.{seen};
ghost use Rattle.fields.specs.Admits.{Admits};
ghost use Rattle.history.specs.State.{row as row_of};
ghost use Rattle.history.specs.Trips.{no_effect};
ghost use Rattle.history.specs.Entering.{asked as asked_of, entry_of, is_held, holds_on};
ghost use Rattle.history.specs.Acts.{Enter as EnterAct, Cancel as CancelAct};
ghost use Rattle.history.specs.Calls.{refusal as refusal_of};
ghost use Rattle.gate.specs.Kept.{state_of, Steps};
ghost use Rattle.gate.specs.Entered.{refused_with};

use crate::desk::Gate;
use checks::{Check, NO_CAUSE, read_at};
use fields::{Named, Order};
use market::Market;
use terms::{Asked, Causes, Effect, EnterAnswer, Event, Notice, Refusal, Ticket};

impl<'g, M: Market, C: Check> Gate<'g, M, C> {
    /// Takes off an entry of an open login by its number; the contracts that were cancelled.
    pub fn cancel(&mut self, login: u64, number: u64) -> Result<u32, Refusal>
        ensures { Steps M.Market C.Check self.old (Event.Cancel login number result) self.new }
    {
        let named = Named::from_numbers(login, number)?;
        if !self.row(login).is_open() {
            return Err(Refusal::NotOpen);
        }
        self.market.withdraw(named.login, named.number)
    }

    /// The causes of the holds on a login and on its firm, 0 for none.
    fn holds_on(&self, login: u64) -> Causes
        ensures { result ≡ holds_on (state_of M.Market C.Check self.now) login }
    {
        let row = self.row(login);
        Causes {
            login: row.hold,
            acronym: self.hold_of(row.acronym()),
        }
    }

    fn is_held(&self, login: u64) -> bool
        ensures { result ≡ is_held (state_of M.Market C.Check self.now) login }
    {
        self.holds_on(login) != NO_CAUSE
    }

    fn admit_enter(&self, ticket: &Ticket) -> Result<Order, Refusal>
        ensures { Admits (refusal_of (state_of M.Market C.Check self.now) (EnterAct ticket.now)) (λ o. (o.series.value ≡ ticket.now.series) × (seen o.entry ≡ entry_of ticket.now)) result }
    {
        let order = Order::try_from(ticket)?;
        if !self.row(ticket.login).is_open() {
            return Err(Refusal::NotOpen);
        }
        if !read_at(&self.valued, ticket.series, false) {
            return Err(Refusal::NoValues);
        }
        if self.is_held(ticket.login) {
            return Err(Refusal::Held);
        }
        Ok(order)
    }

    /// What enter answers where it is refused before the checks: a hold tells its causes.
    fn refused(&self, login: u64, refusal: Refusal) -> EnterAnswer
        ensures { result ≡ refused_with (state_of M.Market C.Check self.now) login refusal }
    {
        let holds = match refusal {
            Refusal::Held => self.holds_on(login),
            _ => NO_CAUSE,
        };
        EnterAnswer::Refused { refusal, holds }
    }

    /// A ticket as the checks judge it.
    fn asked(&self, ticket: Ticket) -> Asked
        ensures { result ≡ asked_of (state_of M.Market C.Check self.now) ticket }
    {
        let row = self.row(ticket.login);
        Asked {
            acronym: row.acronym(),
            role: row.role(),
            ticket,
        }
    }

    /// Judges an order or a quote, and lets it rest in the market.
    pub fn enter(&mut self, ticket: Ticket) -> EnterAnswer
        ensures { Steps M.Market C.Check self.old (Event.Enter ticket result) self.new }
    {
        let order = match self.admit_enter(&ticket) {
            Ok(order) => order,
            Err(refusal) => return self.refused(ticket.login, refusal),
        };
        let asked = self.asked(ticket);
        if let Err(turn_down) = self.checks.judge(asked) {
            let number = turn_down.number() as u8;
            let effect = self.notice(ticket.login, Notice::TurnedDown { asked, number });
            return EnterAnswer::TurnedDown { number, effect };
        }
        if let Err(refusal) = self.market.rest(order.series, order.entry) {
            return EnterAnswer::Refused {
                refusal,
                holds: NO_CAUSE,
            };
        }
        let effect = self.notice(ticket.login, Notice::Entered { asked });
        EnterAnswer::Accepted { effect }
    }
}
