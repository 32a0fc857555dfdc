//! What is sent to a gate and told to its checks, in plain numbers: any number can be sent, and is refused where it is out of its range.

ghost use Rattle.std.specs.Prelude.{◌≡◌};
ghost use Rattle.terms.specs.Entered.{first_nonzero};

use crate::values::ValueNumbers;

/// A login, or a firm with all its logins.
#[derive(Clone, Copy, Debug, PartialEq, Eq)]
pub enum ScopeNumber {
    Login(u64),
    Acronym(u64),
}

/// An order or a quote as it is sent.
#[derive(Clone, Copy)]
pub struct Ticket {
    pub login: u64,
    pub number: u64,
    pub series: u64,
    pub side: u64,
    pub kind: u64,
    pub marks: u64,
    pub price: u64,
    pub contracts: u64,
}

/// A ticket as it is judged: with its firm and the role of its login.
#[derive(Clone, Copy)]
pub struct Asked {
    pub acronym: u64,
    pub role: u64,
    pub ticket: Ticket,
}

/// A limit for a scope: of entries, of contracts filled, of turn-downs, or of size.
#[derive(Clone, Copy)]
pub struct LimitNumbers {
    pub scope: ScopeNumber,
    pub kind: u64,
    pub limit: u64,
    pub interval: u64,
}

/// One side of a trade; also a slip that is handed out.
#[derive(Clone, Copy, Debug, PartialEq, Eq)]
pub struct Fill {
    pub login: u64,
    pub number: u64,
    pub side: u64,
    pub contracts: u64,
    pub price: u64,
}

/// What the checks are told. All but the first two name a firm.
#[derive(Clone, Copy)]
pub enum Notice {
    Ticked {
        time: u64,
    },
    Valued {
        series: u64,
        values: ValueNumbers,
    },
    Opened {
        acronym: u64,
        login: u64,
        role: u64,
        reach: u64,
    },
    Closed {
        acronym: u64,
        login: u64,
    },
    Limited {
        acronym: u64,
        limit: LimitNumbers,
    },
    Released {
        acronym: u64,
        scope: ScopeNumber,
    },
    Entered {
        asked: Asked,
    },
    TurnedDown {
        asked: Asked,
        number: u8,
    },
    Filled {
        acronym: u64,
        fill: Fill,
    },
}

/// What trips a login and its acronym: 0 is no trip. Plain numbers, as they are answered and stand in a history; a check of one's own gives its own.
#[derive(Clone, Copy, Debug, PartialEq, Eq)]
pub struct Causes {
    pub login: u8,
    pub acronym: u8,
}

/// The first of two causes that is not 0.
pub fn first_cause(one: u8, other: u8) -> u8
    ensures { result ≡ first_nonzero one other }
{
    if one == 0 { other } else { one }
}
