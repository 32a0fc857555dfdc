//! The worked cases of the rules, tried through the code.

#![tactic(auto)]

mod table;

use std::{fmt, io};
use table::{Burst, Case, Event, Question, answer_to, worked};
use terms::{ConditionNumbers, Side};

/// A side by its number, which a question has as it is sent: by its word, where it is the number of one.
#[derive(Clone, Copy)]
struct SideOf(u64);

impl fmt::Display for SideOf {
    fn fmt<W: fmt::Write>(&self, f: &mut fmt::Formatter<W>) -> fmt::Result {
        match Side::try_from(self.0) {
            Ok(side) => write!(f, "{side}"),
            Err(_) => write!(f, "side {}", self.0),
        }
    }
}

/// So many events at a time.
impl fmt::Display for Burst {
    fn fmt<W: fmt::Write>(&self, f: &mut fmt::Formatter<W>) -> fmt::Result {
        let times = self.times;
        let time = self.moment.time;
        match self.moment.event {
            Event::Entry => write!(f, "{times} at {time}"),
            Event::Fill { contracts } => write!(f, "{times} of {contracts} at {time}"),
        }
    }
}

/// What is asked, in a few words.
impl fmt::Display for Question {
    fn fmt<W: fmt::Write>(&self, f: &mut fmt::Formatter<W>) -> fmt::Result {
        match *self {
            Question::LimitPrice {
                request,
                conditions,
            } => {
                let ConditionNumbers {
                    phase,
                    nbb,
                    nbo,
                    offer,
                    close,
                    ..
                } = conditions;
                let side = SideOf(request.side);
                let price = request.price;
                write!(
                    f,
                    "limit price: {side} {price}, phase {phase}, nbb {nbb}, nbo {nbo}, offer {offer}, close {close}"
                )
            }
            Question::PutAndCall { request, values } => {
                let side = SideOf(request.side);
                let price = request.price;
                let strike = values.strike;
                write!(f, "put and call: {side} {price}, strike {strike}")
            }
            Question::Windows {
                limit,
                first,
                second,
                last,
            } => {
                let kind = limit.kind;
                let most = limit.limit;
                let interval = limit.interval;
                let last = Burst {
                    times: 1,
                    moment: last,
                };
                write!(
                    f,
                    "window {kind}: limit {most} in {interval} ms, {first}, {second}, {last}"
                )
            }
        }
    }
}

/// One line for a case.
fn show(rt: &HostRuntime, case: &Case) -> io::Result<()> {
    let question = case.question;
    let got = answer_to(&question);
    let word = if got == case.due { "as due" } else { "WRONG" };
    println!(rt; "{question} -> {got}, {word}")
}

fn main(rt: HostRuntime) -> io::Result<()> {
    for case in worked().iter() {
        show(&rt, case)?;
    }
    Ok(())
}
