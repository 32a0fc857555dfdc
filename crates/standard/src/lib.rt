//! The standard pile: size, put and call, limit price and rates, in that order.

#![tactic(auto)]

ghost use Rattle.standard.specs.Standard.{Fresh};

use checks::{ByValues, LimitPrice, Pile, PutAndCall, Size};
use rates::Rates;

#[cfg(test)]
mod tests;

/// The four checks in their order: the first that turns an entry down gives the number.
pub type StandardPile = Pile<Size, Pile<ByValues<PutAndCall>, Pile<ByValues<LimitPrice>, Rates>>>;

/// Without limits or values, at time 0.
pub fn standard_pile() -> StandardPile
    ensures { Fresh result }
{
    Pile {
        first: Size::new(),
        rest: Pile {
            first: ByValues::new(PutAndCall),
            rest: Pile {
                first: ByValues::new(LimitPrice),
                rest: Rates::new(),
            },
        },
    }
}
