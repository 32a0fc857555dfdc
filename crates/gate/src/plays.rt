//! Any call, calls one after another, and a whole day from a new gate.

ghost use Rattle.std.specs.Prelude.{◌≡◌, min, [], ◌∷◌, length, take};
ghost use Rattle.history.specs.Acts.{call_of};
ghost use Rattle.gate.specs.Kept.{state_of, Steps};
ghost use Rattle.gate.specs.Played.{Leads, Keeps, Made, Day, Answered, played};

use crate::desk::Gate;
use crate::rows::BLANK;
use checks::Check;
use market::Market;
use terms::{Call, Event, Refusal};

impl<'g, M: Market, C: Check> Gate<'g, M, C> {
    /// A new gate at time 0 with every login free, over a market in which nothing rests and nothing waits.
    pub fn new(market: &'g mut M, checks: &'g mut C) -> Result<Gate<'g, M, C>, Refusal>
        ensures { Made M.Market C.Check market.old checks.old result }
    {
        if !market.is_bare() {
            return Err(Refusal::NotEmpty);
        }
        checks.renew();
        Ok(Gate {
            market,
            checks,
            time: 0,
            valued: [false; 16],
            rows: [BLANK; 24],
            holds: [0; 8],
        })
    }

    /// Answers a call.
    fn answer(&mut self, call: Call) -> Event
        ensures step { Steps M.Market C.Check self.old result self.new }
        ensures asked { call_of result ≡ call }
    {
        match call {
            Call::Tick { time } => {
                let answer = self.tick(time);
                Event::Tick { time, answer }
            }
            Call::Values { series, values } => {
                let answer = self.values(series, values);
                Event::Values {
                    series,
                    values,
                    answer,
                }
            }
            Call::Open {
                login,
                acronym,
                role,
                reach,
            } => {
                let answer = self.open(login, acronym, role, reach);
                Event::Open {
                    login,
                    acronym,
                    role,
                    reach,
                    answer,
                }
            }
            Call::Retire { login } => {
                let answer = self.retire(login);
                Event::Retire { login, answer }
            }
            Call::Limit { limit } => {
                let answer = self.limit(limit);
                Event::Limit { limit, answer }
            }
            Call::Enter { ticket } => {
                let answer = self.enter(ticket);
                Event::Enter { ticket, answer }
            }
            Call::Cancel { login, number } => {
                let answer = self.cancel(login, number);
                Event::Cancel {
                    login,
                    number,
                    answer,
                }
            }
            Call::Strike => {
                let answer = self.strike();
                Event::Strike { answer }
            }
            Call::Take { login } => {
                let answer = self.take_slip(login);
                Event::Take { login, answer }
            }
            Call::Receipt { fill } => {
                let answer = self.receipt_slip(fill);
                Event::Receipt { fill, answer }
            }
            Call::PutBack { fill } => {
                let answer = self.put_slip_back(fill);
                Event::PutBack { fill, answer }
            }
            Call::Kill {
                scope,
                reach,
                block,
            } => {
                let answer = self.kill(scope, reach, block);
                Event::Kill {
                    scope,
                    reach,
                    block,
                    answer,
                }
            }
            Call::Release { scope } => {
                let answer = self.release(scope);
                Event::Release { scope, answer }
            }
        }
    }

    /// Answers a call. Whatever calls led here, isolation, contract sum and holds stand for all of them with this one.
    pub fn call(&mut self, call: Call) -> Event
        ensures step { Steps M.Market C.Check self.old result self.new }
        ensures asked { call_of result ≡ call }
        ensures keeps { Keeps (state_of M.Market C.Check self.old) (result ∷ []) (state_of M.Market C.Check self.new) }
    {
        self.answer(call)
    }

    /// Answers calls one after another, as many as there is room for their events, and tells how many.
    pub fn run(&mut self, calls: &[Call], events: &mut [Event]) -> usize
        ensures count { result ≡ played calls.now events.old }
        ensures answered { Answered result calls.now events.old events.new }
        ensures leads { Leads (state_of M.Market C.Check self.old) (take result events.new) (state_of M.Market C.Check self.new) }
        ensures keeps { Keeps (state_of M.Market C.Check self.old) (take result events.new) (state_of M.Market C.Check self.new) }
    {
        let count = calls.len().min(events.len());
        // By place: what a slice holds that is written through `zip` is not known after the loop. By the index alone, since it names the call too.
        for i in 0..count {
            events[i] = self.call(calls[i]);
        }
        count
    }

    /// Plays a whole day from a new gate.
    pub fn day(
        market: &'g mut M,
        checks: &'g mut C,
        calls: &[Call],
        events: &mut [Event],
    ) -> Result<Gate<'g, M, C>, Refusal>
        ensures { Day M.Market C.Check market.old checks.old result calls.now events.old events.new }
    {
        let mut gate = Gate::new(market, checks)?;
        let _ = gate.run(calls, events);
        Ok(gate)
    }
}
