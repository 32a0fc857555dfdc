//! How an entry to rest, a trade and a slip are printed.

use std::fmt;
use terms::{Slip, Trade};

/// A trade, with who buys and who sells.
#[derive(Clone, Copy)]
pub(crate) struct Deal(pub(crate) Trade);

impl fmt::Display for Deal {
    fn fmt<W: fmt::Write>(&self, f: &mut fmt::Formatter<W>) -> fmt::Result {
        let Trade {
            buyer,
            seller,
            contracts,
            price,
        } = self.0;
        write!(
            f,
            "{contracts} at {price}: login {} number {} buys, login {} number {} sells",
            buyer.login, buyer.number, seller.login, seller.number
        )
    }
}

/// A slip, if there is one.
#[derive(Clone, Copy)]
pub(crate) struct Shown(pub(crate) Option<Slip>);

impl fmt::Display for Shown {
    fn fmt<W: fmt::Write>(&self, f: &mut fmt::Formatter<W>) -> fmt::Result {
        match self.0 {
            None => write!(f, "none"),
            Some(slip) => write!(
                f,
                "number {}, {} {} at {}",
                slip.number.number(),
                slip.side,
                slip.contracts.number(),
                slip.price.number()
            ),
        }
    }
}
