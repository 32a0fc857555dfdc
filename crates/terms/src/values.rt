//! What is known of a series, and what an entry asks for.

ghost use Rattle.std.specs.Prelude.{◌≡◌};
ghost use Rattle.terms.specs.Ranges.{or_field};
ghost use Rattle.terms.specs.Values.{scope, bid_offer, conditions, values, request};

use crate::kinds::{Class, Kind, Marks, OptionType, Phase, Role, Side, flag};
use crate::messages::{Asked, ScopeNumber};
use crate::ranges::{Acronym, Login, Price, optional_price};
use crate::refusal::Refusal;

/// A login, or a firm with all its logins.
#[derive(Clone, Copy, Debug, PartialEq, Eq)]
pub enum Scope {
    Login(Login),
    Acronym(Acronym),
}

/// A bid and an offer, of which either may be absent.
#[derive(Clone, Copy, Debug, PartialEq, Eq)]
pub struct BidOffer {
    pub bid: Option<Price>,
    pub offer: Option<Price>,
}

/// What the limit price of a series goes by. The national best bid and offer come with a flag: off, they do not count.
#[derive(Clone, Copy, Debug, PartialEq, Eq)]
pub struct Conditions {
    pub class: Class,
    pub phase: Phase,
    pub flag: bool,
    pub national: BidOffer,
    pub venue: BidOffer,
    pub close: Option<Price>,
}

/// All that is known of a series; the underlying value may be absent.
#[derive(Clone, Copy, Debug, PartialEq, Eq)]
pub struct Values {
    pub option: OptionType,
    pub strike: Price,
    pub conditions: Conditions,
    pub underlying: Option<Price>,
}

/// What an order or a quote asks for, and the role of who sends it.
#[derive(Clone, Copy, Debug, PartialEq, Eq)]
pub struct Request {
    pub role: Role,
    pub side: Side,
    pub kind: Kind,
    pub marks: Marks,
    pub price: Price,
}

/// The fields of `Conditions` as they are sent, in plain numbers; a price that is absent is 0.
#[derive(Clone, Copy, Debug, PartialEq, Eq)]
pub struct ConditionNumbers {
    pub class: u64,
    pub phase: u64,
    pub flag: u64,
    pub nbb: u64,
    pub nbo: u64,
    pub bid: u64,
    pub offer: u64,
    pub close: u64,
}

/// The fields of `Values` as plain numbers; an underlying value that is absent is 0.
#[derive(Clone, Copy, Debug, PartialEq, Eq)]
pub struct ValueNumbers {
    pub option: u64,
    pub strike: u64,
    pub conditions: ConditionNumbers,
    pub underlying: u64,
}

/// The fields of `Request` as plain numbers.
#[derive(Clone, Copy, Debug, PartialEq, Eq)]
pub struct RequestNumbers {
    pub role: u64,
    pub side: u64,
    pub kind: u64,
    pub marks: u64,
    pub price: u64,
}

/// What a ticket asks for, with the role of its login.
impl From<&Asked> for RequestNumbers {
    ghost from_gives = { λ k n. n ≡ record { role = k.now.role; side = k.now.ticket.side; kind = k.now.ticket.kind; marks = k.now.ticket.marks; price = k.now.ticket.price } };

    fn from(asked: &Asked) -> RequestNumbers {
        RequestNumbers {
            role: asked.role,
            side: asked.ticket.side,
            kind: asked.ticket.kind,
            marks: asked.ticket.marks,
            price: asked.ticket.price,
        }
    }
}

impl TryFrom<ScopeNumber> for Scope {
    type Error = Refusal;

    ghost try_from_gives = { λ n r. r ≡ or_field (scope n) };

    fn try_from(n: ScopeNumber) -> Result<Scope, Refusal> {
        match n {
            ScopeNumber::Login(login) => Ok(Scope::Login(Login::try_from(login)?)),
            ScopeNumber::Acronym(acronym) => Ok(Scope::Acronym(Acronym::try_from(acronym)?)),
        }
    }
}

impl BidOffer {
    /// From two numbers: in a tuple, which a `TryFrom` could take, they would lose their names.
    #[tactic(auto, unfolding(crate::specs::Values::bid_offer))]
    pub fn from_numbers(bid: u64, offer: u64) -> Result<BidOffer, Refusal>
        ensures { result ≡ or_field (bid_offer bid offer) }
    {
        let bid = optional_price(bid)?;
        let offer = optional_price(offer)?;
        Ok(BidOffer { bid, offer })
    }
}

impl TryFrom<ConditionNumbers> for Conditions {
    type Error = Refusal;

    ghost try_from_gives = { λ n r. r ≡ or_field (conditions n) };

    #[tactic(auto, unfolding(crate::specs::Values::conditions))]
    fn try_from(n: ConditionNumbers) -> Result<Conditions, Refusal> {
        let class = Class::try_from(n.class)?;
        let phase = Phase::try_from(n.phase)?;
        let flag = flag(n.flag)?;
        let national = BidOffer::from_numbers(n.nbb, n.nbo)?;
        let venue = BidOffer::from_numbers(n.bid, n.offer)?;
        let close = optional_price(n.close)?;
        Ok(Conditions {
            class,
            phase,
            flag,
            national,
            venue,
            close,
        })
    }
}

impl TryFrom<ValueNumbers> for Values {
    type Error = Refusal;

    ghost try_from_gives = { λ n r. r ≡ or_field (values n) };

    #[tactic(auto, unfolding(crate::specs::Values::values))]
    fn try_from(n: ValueNumbers) -> Result<Values, Refusal> {
        let option = OptionType::try_from(n.option)?;
        let strike = Price::try_from(n.strike)?;
        let conditions = Conditions::try_from(n.conditions)?;
        let underlying = optional_price(n.underlying)?;
        Ok(Values {
            option,
            strike,
            conditions,
            underlying,
        })
    }
}

impl TryFrom<RequestNumbers> for Request {
    type Error = Refusal;

    ghost try_from_gives = { λ n r. r ≡ or_field (request n) };

    #[tactic(auto, unfolding(crate::specs::Values::request))]
    fn try_from(n: RequestNumbers) -> Result<Request, Refusal> {
        let role = Role::try_from(n.role)?;
        let side = Side::try_from(n.side)?;
        let kind = Kind::try_from(n.kind)?;
        let marks = Marks::try_from(n.marks)?;
        let price = Price::try_from(n.price)?;
        Ok(Request {
            role,
            side,
            kind,
            marks,
            price,
        })
    }
}
