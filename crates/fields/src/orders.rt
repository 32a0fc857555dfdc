//! Fields that become what a market takes: entries, slips and those who send them.

ghost use Rattle.std.specs.Prelude.{◌≡◌, ◌&&◌};
ghost use Rattle.terms.specs.Kinds.{reach_number};
ghost use Rattle.market.specs.Book.{slip_of};
ghost use Rattle.market.specs.Seen.{seen, seen_slip};
ghost use Rattle.history.specs.Fields.{good_login, good_number, good_open, good_ticket, good_fill};
ghost use Rattle.history.specs.Entering.{entry_of};
ghost use Rattle.fields.specs.Admits.{Admits, out_of_range};

use terms::{
    Acronym, Contracts, Entry, Fill, Kind, Login, Marks, OrderNumber, Price, Reach, Refusal, Role,
    Series, Side, Slip, Ticket,
};

/// An entry by its login and number.
#[derive(Clone, Copy, Debug, PartialEq, Eq)]
pub struct Named {
    pub login: Login,
    pub number: OrderNumber,
}

// From numbers, as the opening below and a kill: in a tuple, which a `TryFrom` could take, they would lose their names.
impl Named {
    pub fn from_numbers(login: u64, number: u64) -> Result<Named, Refusal>
        ensures { Admits (out_of_range (good_login login && good_number number)) (λ n. (n.login.value ≡ login) × (n.number.value ≡ number)) result }
    {
        let login = Login::try_from(login)?;
        let number = OrderNumber::try_from(number)?;
        Ok(Named { login, number })
    }
}

/// A login to be opened, and the reach of its trips.
#[derive(Clone, Copy, Debug, PartialEq, Eq)]
pub struct Opening {
    pub login: Login,
    pub reach: Reach,
}

impl Opening {
    pub fn from_numbers(login: u64, acronym: u64, role: u64, reach: u64) -> Result<Opening, Refusal>
        ensures { Admits (out_of_range (good_open login acronym role reach)) (λ o. (o.login.value ≡ login) × (reach_number o.reach ≡ reach)) result }
    {
        let login = Login::try_from(login)?;
        let _ = Acronym::try_from(acronym)?;
        let _ = Role::try_from(role)?;
        let reach = Reach::try_from(reach)?;
        Ok(Opening { login, reach })
    }
}

/// A slip as it is handed back, by the login that it was handed out to.
#[derive(Clone, Copy, Debug, PartialEq, Eq)]
pub struct Claim {
    pub login: Login,
    pub slip: Slip,
}

impl TryFrom<&Fill> for Claim {
    type Error = Refusal;

    ghost try_from_gives = { λ fill. Admits (out_of_range (good_fill fill.now)) (λ k. (k.login.value ≡ fill.now.login) × (seen_slip k.slip ≡ slip_of fill.now)) };

    fn try_from(fill: &Fill) -> Result<Claim, Refusal> {
        let login = Login::try_from(fill.login)?;
        let number = OrderNumber::try_from(fill.number)?;
        let side = Side::try_from(fill.side)?;
        let contracts = Contracts::try_from(fill.contracts)?;
        let price = Price::try_from(fill.price)?;
        Ok(Claim {
            login,
            slip: Slip {
                number,
                side,
                contracts,
                price,
            },
        })
    }
}

/// An entry with its series.
#[derive(Clone, Copy, Debug, PartialEq, Eq)]
pub struct Order {
    pub series: Series,
    pub entry: Entry,
}

impl TryFrom<&Ticket> for Order {
    type Error = Refusal;

    ghost try_from_gives = { λ ticket. Admits (out_of_range (good_ticket ticket.now)) (λ o. (o.series.value ≡ ticket.now.series) × (seen o.entry ≡ entry_of ticket.now)) };

    fn try_from(ticket: &Ticket) -> Result<Order, Refusal> {
        let login = Login::try_from(ticket.login)?;
        let number = OrderNumber::try_from(ticket.number)?;
        let series = Series::try_from(ticket.series)?;
        let side = Side::try_from(ticket.side)?;
        let kind = Kind::try_from(ticket.kind)?;
        let _ = Marks::try_from(ticket.marks)?;
        let price = Price::try_from(ticket.price)?;
        let contracts = Contracts::try_from(ticket.contracts)?;
        Ok(Order {
            series,
            entry: Entry {
                login,
                number,
                side,
                kind,
                price,
                contracts,
            },
        })
    }
}
