//! What rests and what waits in a market.

ghost use Rattle.std.specs.Prelude.{◌≡◌};

use crate::kinds::{Kind, Side};
use crate::ranges::{Contracts, Login, OrderNumber, Price};

/// An order or a quote that rests, with the contracts left.
#[derive(Clone, Copy, Debug, PartialEq, Eq)]
pub struct Entry {
    pub login: Login,
    pub number: OrderNumber,
    pub side: Side,
    pub kind: Kind,
    pub price: Price,
    pub contracts: Contracts,
}

/// What a login is told of a trade, while it waits to be taken.
#[derive(Clone, Copy, Debug, PartialEq, Eq)]
pub struct Slip {
    pub number: OrderNumber,
    pub side: Side,
    pub contracts: Contracts,
    pub price: Price,
}

/// The slip of a whole entry.
impl From<Entry> for Slip {
    ghost from_gives = { λ e s. s ≡ record { number = e.number; side = e.side; contracts = e.contracts; price = e.price } };

    fn from(entry: Entry) -> Slip {
        Slip {
            number: entry.number,
            side: entry.side,
            contracts: entry.contracts,
            price: entry.price,
        }
    }
}
