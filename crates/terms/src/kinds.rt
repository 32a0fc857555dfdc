//! The words that have few values, and how a plain number becomes one of them.

ghost use Rattle.std.specs.Prelude.{◌≡◌, ◌-◌, Some};
ghost use Rattle.terms.specs.Ranges.{ReadAs};
ghost use Rattle.terms.specs.Kinds.{side, side_number, side_word, other_side, kind, kind_number, role, role_number, marks, marks_number, reach, reach_number, option_type, option_type_number, class, class_number, phase, phase_number, limit_kind, limit_kind_number, flag_of, flag_number};

use crate::refusal::Refusal;
use std::fmt;

#[derive(Clone, Copy, Debug, PartialEq, Eq)]
pub enum Side {
    Buy,
    Sell,
}

/// What an entry is: an order, or one side of a quote.
#[derive(Clone, Copy, Debug, PartialEq, Eq)]
pub enum Kind {
    Order,
    Quote,
}

#[derive(Clone, Copy, Debug, PartialEq, Eq)]
pub enum Role {
    Member,
    MarketMaker,
}

/// What an order is marked as: an intermarket sweep, a stop order, both or neither.
#[derive(Clone, Copy, Debug, PartialEq, Eq)]
pub struct Marks {
    pub sweep: bool,
    pub stop: bool,
}

/// Which kinds of a login's entries are taken off together.
#[derive(Clone, Copy, Debug, PartialEq, Eq)]
pub enum Reach {
    Quotes,
    Orders,
    Both,
}

#[derive(Clone, Copy, Debug, PartialEq, Eq)]
pub enum OptionType {
    Call,
    Put,
}

/// The class of a series, by which its distances go.
#[derive(Clone, Copy, Debug, PartialEq, Eq)]
pub enum Class {
    One,
    Two,
    Three,
    Four,
}

#[derive(Clone, Copy, Debug, PartialEq, Eq)]
pub enum Phase {
    BeforeOpening,
    Open,
    Halt,
}

/// What a limit counts: entries accepted, contracts filled, entries turned down for their price, or the contracts of one entry.
#[derive(Clone, Copy, Debug, PartialEq, Eq)]
pub enum LimitKind {
    Entries,
    Fills,
    TurnDowns,
    Size,
}

impl Side {
    /// The side that it trades with.
    pub fn other(self) -> Side
        ensures value { result ≡ other_side self }
        ensures number { side_number result ≡ 3 - side_number self }
    {
        match self {
            Side::Buy => Side::Sell,
            Side::Sell => Side::Buy,
        }
    }
}

impl TryFrom<u64> for Side {
    type Error = Refusal;

    ghost try_from_gives = { ReadAs side_number 1 2 side };

    fn try_from(n: u64) -> Result<Side, Refusal> {
        match n {
            1 => Ok(Side::Buy),
            2 => Ok(Side::Sell),
            _ => Err(Refusal::Field),
        }
    }
}

impl From<Side> for u64 {
    ghost from_gives = { λ s n. n ≡ side_number s };

    fn from(side: Side) -> u64 {
        match side {
            Side::Buy => 1,
            Side::Sell => 2,
        }
    }
}

impl fmt::Display for Side {
    ghost output = { λ x. Some (side_word x) };

    fn fmt<W: fmt::Write>(&self, f: &mut fmt::Formatter<W>) -> fmt::Result {
        f.write_str(match *self {
            Side::Buy => "buy",
            Side::Sell => "sell",
        })
    }
}

impl TryFrom<u64> for Kind {
    type Error = Refusal;

    ghost try_from_gives = { ReadAs kind_number 1 2 kind };

    fn try_from(n: u64) -> Result<Kind, Refusal> {
        match n {
            1 => Ok(Kind::Order),
            2 => Ok(Kind::Quote),
            _ => Err(Refusal::Field),
        }
    }
}

impl TryFrom<u64> for Role {
    type Error = Refusal;

    ghost try_from_gives = { ReadAs role_number 1 2 role };

    fn try_from(n: u64) -> Result<Role, Refusal> {
        match n {
            1 => Ok(Role::Member),
            2 => Ok(Role::MarketMaker),
            _ => Err(Refusal::Field),
        }
    }
}

impl TryFrom<u64> for Marks {
    type Error = Refusal;

    ghost try_from_gives = { ReadAs marks_number 0 3 marks };

    fn try_from(n: u64) -> Result<Marks, Refusal> {
        match n {
            0..=3 => Ok(Marks {
                sweep: n % 2 == 1,
                stop: n >= 2,
            }),
            _ => Err(Refusal::Field),
        }
    }
}

impl TryFrom<u64> for Reach {
    type Error = Refusal;

    ghost try_from_gives = { ReadAs reach_number 1 3 reach };

    fn try_from(n: u64) -> Result<Reach, Refusal> {
        match n {
            1 => Ok(Reach::Quotes),
            2 => Ok(Reach::Orders),
            3 => Ok(Reach::Both),
            _ => Err(Refusal::Field),
        }
    }
}

impl TryFrom<u64> for OptionType {
    type Error = Refusal;

    ghost try_from_gives = { ReadAs option_type_number 1 2 option_type };

    fn try_from(n: u64) -> Result<OptionType, Refusal> {
        match n {
            1 => Ok(OptionType::Call),
            2 => Ok(OptionType::Put),
            _ => Err(Refusal::Field),
        }
    }
}

impl TryFrom<u64> for Class {
    type Error = Refusal;

    ghost try_from_gives = { ReadAs class_number 1 4 class };

    fn try_from(n: u64) -> Result<Class, Refusal> {
        match n {
            1 => Ok(Class::One),
            2 => Ok(Class::Two),
            3 => Ok(Class::Three),
            4 => Ok(Class::Four),
            _ => Err(Refusal::Field),
        }
    }
}

impl TryFrom<u64> for Phase {
    type Error = Refusal;

    ghost try_from_gives = { ReadAs phase_number 1 3 phase };

    fn try_from(n: u64) -> Result<Phase, Refusal> {
        match n {
            1 => Ok(Phase::BeforeOpening),
            2 => Ok(Phase::Open),
            3 => Ok(Phase::Halt),
            _ => Err(Refusal::Field),
        }
    }
}

impl TryFrom<u64> for LimitKind {
    type Error = Refusal;

    ghost try_from_gives = { ReadAs limit_kind_number 1 4 limit_kind };

    fn try_from(n: u64) -> Result<LimitKind, Refusal> {
        match n {
            1 => Ok(LimitKind::Entries),
            2 => Ok(LimitKind::Fills),
            3 => Ok(LimitKind::TurnDowns),
            4 => Ok(LimitKind::Size),
            _ => Err(Refusal::Field),
        }
    }
}

/// A flag: 0 is off, 1 is on. A function, since neither `bool` nor `u64` is of this crate, whose own `TryFrom` it could be.
pub fn flag(n: u64) -> Result<bool, Refusal>
    ensures { ReadAs flag_number 0 1 flag_of n result }
{
    match n {
        0 => Ok(false),
        1 => Ok(true),
        _ => Err(Refusal::Field),
    }
}
