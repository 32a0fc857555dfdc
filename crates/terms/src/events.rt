//! The calls of a gate, what it answers, and the two together: an event.

ghost use Rattle.std.specs.Prelude.{◌≡◌};
ghost use Rattle.terms.specs.Entered.{entered_number, entered_effect};

use crate::entries::Entry;
use crate::messages::{Causes, Fill, LimitNumbers, ScopeNumber, Ticket};
use crate::refusal::Refusal;
use crate::values::ValueNumbers;

/// What is asked of a gate. Any number can be sent, and is refused where it is out of its range.
#[derive(Clone, Copy)]
pub enum Call {
    Tick {
        time: u64,
    },
    Values {
        series: u64,
        values: ValueNumbers,
    },
    Open {
        login: u64,
        acronym: u64,
        role: u64,
        reach: u64,
    },
    Retire {
        login: u64,
    },
    Limit {
        limit: LimitNumbers,
    },
    Enter {
        ticket: Ticket,
    },
    Cancel {
        login: u64,
        number: u64,
    },
    Strike,
    Take {
        login: u64,
    },
    Receipt {
        fill: Fill,
    },
    PutBack {
        fill: Fill,
    },
    Kill {
        scope: ScopeNumber,
        reach: u64,
        block: u64,
    },
    Release {
        scope: ScopeNumber,
    },
}

/// What came of telling the checks: what tripped, and the contracts that were cancelled by it.
#[derive(Clone, Copy, Debug, PartialEq, Eq)]
pub struct Effect {
    pub causes: Causes,
    pub cancelled: u32,
}

/// What enter answers.
#[derive(Clone, Copy, Debug, PartialEq, Eq)]
pub enum EnterAnswer {
    /// The entry rests.
    Accepted { effect: Effect },
    /// A check turns it down, with a number from 41 to 59: plain, as it stands in a history.
    TurnedDown { number: u8, effect: Effect },
    /// It is refused; where it is held, for these causes.
    Refused { refusal: Refusal, holds: Causes },
}

impl EnterAnswer {
    /// 0 where the entry rests, else the number of its turn-down or of its refusal.
    pub fn number(&self) -> u8
        ensures { result ≡ entered_number self.now }
    {
        match *self {
            EnterAnswer::Accepted { .. } => 0,
            EnterAnswer::TurnedDown { number, .. } => number,
            EnterAnswer::Refused { refusal, .. } => refusal.number(),
        }
    }

    /// What tripped and was cancelled; the causes of a refusal are those of the holds.
    pub fn effect(&self) -> Effect
        ensures { result ≡ entered_effect self.now }
    {
        match *self {
            EnterAnswer::Accepted { effect } => effect,
            EnterAnswer::TurnedDown { effect, .. } => effect,
            EnterAnswer::Refused { holds, .. } => Effect {
                causes: holds,
                cancelled: 0,
            },
        }
    }
}

/// Who stands on one side of a trade, and with which entry.
#[derive(Clone, Copy, Debug, PartialEq, Eq)]
pub struct Party {
    pub login: u64,
    pub number: u64,
}

/// Who has an entry, and under which number.
impl From<Entry> for Party {
    ghost from_gives = { λ e p. p ≡ record { login = e.login.value; number = e.number.value } };

    fn from(entry: Entry) -> Party {
        Party {
            login: entry.login.into(),
            number: entry.number.into(),
        }
    }
}

#[derive(Clone, Copy, Debug, PartialEq, Eq)]
pub struct Trade {
    pub buyer: Party,
    pub seller: Party,
    pub contracts: u64,
    pub price: u64,
}

/// What strike answers where it trades: the trade, and what came of telling each side of it.
#[derive(Clone, Copy, Debug, PartialEq, Eq)]
pub struct Struck {
    pub trade: Trade,
    pub buy: Effect,
    pub sell: Effect,
}

/// A call with its answer. It repeats the fields of its call, since each call has a type of answer of its own.
#[derive(Clone, Copy)]
pub enum Event {
    Tick {
        time: u64,
        answer: Result<(), Refusal>,
    },
    Values {
        series: u64,
        values: ValueNumbers,
        answer: Result<(), Refusal>,
    },
    Open {
        login: u64,
        acronym: u64,
        role: u64,
        reach: u64,
        answer: Result<(), Refusal>,
    },
    Retire {
        login: u64,
        answer: Result<u32, Refusal>,
    },
    Limit {
        limit: LimitNumbers,
        answer: Result<(), Refusal>,
    },
    Enter {
        ticket: Ticket,
        answer: EnterAnswer,
    },
    Cancel {
        login: u64,
        number: u64,
        answer: Result<u32, Refusal>,
    },
    Strike {
        answer: Result<Option<Struck>, Refusal>,
    },
    Take {
        login: u64,
        answer: Result<Fill, Refusal>,
    },
    Receipt {
        fill: Fill,
        answer: Result<(), Refusal>,
    },
    PutBack {
        fill: Fill,
        answer: Result<(), Refusal>,
    },
    Kill {
        scope: ScopeNumber,
        reach: u64,
        block: u64,
        answer: Result<u32, Refusal>,
    },
    Release {
        scope: ScopeNumber,
        answer: Result<(), Refusal>,
    },
}
