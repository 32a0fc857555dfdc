//! What a gate answers, as it is printed.

ghost use Rattle.std.specs.Prelude.{◌≡◌, ◌++◌, Some};
ghost use Rattle.lines.specs.Answers.{effect_text, trade_text, fill_text, bracketed, text, or_refused, answer_of};

use std::fmt;
use terms::{Effect, EnterAnswer, Event, Fill, Refusal, Struck, Trade};

/// What is told of a call: that it was done, what came of it, or why it was refused.
#[derive(Clone, Copy)]
pub enum Answer {
    Done,
    Cancelled { contracts: u32 },
    Entered { answer: EnterAnswer },
    NoTrade,
    Traded { struck: Struck },
    Slip { fill: Fill },
    Refused { refusal: Refusal },
}

/// What came of telling the checks: the login's cause, the acronym's, and the contracts cancelled.
#[derive(Clone, Copy)]
struct Outcome(Effect);

impl fmt::Display for Outcome {
    ghost output = { λ x. Some (effect_text x.0) };

    fn fmt<W: fmt::Write>(&self, f: &mut fmt::Formatter<W>) -> fmt::Result {
        let login = self.0.causes.login;
        let acronym = self.0.causes.acronym;
        let cancelled = self.0.cancelled;
        write!(f, "{login} {acronym} {cancelled}")
    }
}

/// Buyer, seller, contracts and price.
#[derive(Clone, Copy)]
struct Deal(Trade);

impl fmt::Display for Deal {
    ghost output = { λ x. Some (trade_text x.0) };

    fn fmt<W: fmt::Write>(&self, f: &mut fmt::Formatter<W>) -> fmt::Result {
        let Trade {
            buyer,
            seller,
            contracts,
            price,
        } = self.0;
        write!(
            f,
            "{} {} {} {} {contracts} {price}",
            buyer.login, buyer.number, seller.login, seller.number
        )
    }
}

#[derive(Clone, Copy)]
struct SlipFields(Fill);

impl fmt::Display for SlipFields {
    ghost output = { λ x. Some (fill_text x.0) };

    fn fmt<W: fmt::Write>(&self, f: &mut fmt::Formatter<W>) -> fmt::Result {
        let Fill {
            login,
            number,
            side,
            contracts,
            price,
        } = self.0;
        write!(f, "{login} {number} {side} {contracts} {price}")
    }
}

/// The word of a refusal in brackets; a number of a check of one's own has none.
#[derive(Clone, Copy)]
struct InBrackets(Option<Refusal>);

impl fmt::Display for InBrackets {
    ghost output = { λ x. Some (bracketed x.0) };

    fn fmt<W: fmt::Write>(&self, f: &mut fmt::Formatter<W>) -> fmt::Result {
        match self.0 {
            None => Ok(()),
            Some(refusal) => write!(f, " ({})", refusal.word()),
        }
    }
}

impl fmt::Display for Answer {
    ghost output = { λ x. Some (text x) };

    fn fmt<W: fmt::Write>(&self, f: &mut fmt::Formatter<W>) -> fmt::Result {
        match *self {
            Answer::Done => write!(f, "ok"),
            Answer::Cancelled { contracts } => write!(f, "cancelled {contracts}"),
            Answer::Entered { answer } => write!(
                f,
                "enter {} {}{}",
                answer.number(),
                Outcome(answer.effect()),
                InBrackets(Refusal::try_from(answer.number()).ok())
            ),
            Answer::NoTrade => write!(f, "none"),
            Answer::Traded { struck } => write!(
                f,
                "trade {} buyer {} seller {}",
                Deal(struck.trade),
                Outcome(struck.buy),
                Outcome(struck.sell)
            ),
            Answer::Slip { fill } => write!(f, "slip {}", SlipFields(fill)),
            Answer::Refused { refusal } => write!(f, "refused {refusal}"),
        }
    }
}

impl Answer {
    /// What is told of a call that was done, or why it was refused.
    fn told(event: &Event) -> Result<Answer, Refusal>
        ensures { or_refused result ≡ answer_of event.now }
    {
        match *event {
            Event::Tick { answer, .. }
            | Event::Values { answer, .. }
            | Event::Open { answer, .. }
            | Event::Limit { answer, .. }
            | Event::Receipt { answer, .. }
            | Event::PutBack { answer, .. }
            | Event::Release { answer, .. } => {
                answer?;
                Ok(Answer::Done)
            }
            Event::Retire { answer, .. }
            | Event::Cancel { answer, .. }
            | Event::Kill { answer, .. } => Ok(Answer::Cancelled { contracts: answer? }),
            Event::Enter { answer, .. } => Ok(Answer::Entered { answer }),
            Event::Strike { answer } => match answer? {
                None => Ok(Answer::NoTrade),
                Some(struck) => Ok(Answer::Traded { struck }),
            },
            Event::Take { answer, .. } => Ok(Answer::Slip { fill: answer? }),
        }
    }

    /// What an event answers.
    pub fn of(event: &Event) -> Answer
        ensures { result ≡ answer_of event.now }
    {
        Answer::told(event).unwrap_or_else(|refusal| Answer::Refused { refusal })
    }
}
