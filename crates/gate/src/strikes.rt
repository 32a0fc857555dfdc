//! Strikes: the market trades, and each side is told.

ghost use Rattle.std.specs.Prelude.{◌≡◌};
ghost use Rattle.history.specs.Strikes.{fill_effect, fill_told};
ghost use Rattle.gate.specs.Kept.{state_of, Steps};
ghost use Rattle.gate.specs.Sides.{side_fill};

use crate::desk::Gate;
use checks::Check;
use market::Market;
use terms::{Effect, Event, Fill, Notice, Refusal, Side, Struck, Trade};

/// One side of a trade, as its login and the checks are told of it.
fn side_of(trade: Trade, side: Side) -> Fill
    ensures { result ≡ side_fill trade side }
{
    let party = match side {
        Side::Buy => trade.buyer,
        Side::Sell => trade.seller,
    };
    Fill {
        login: party.login,
        number: party.number,
        side: side.into(),
        contracts: trade.contracts,
        price: trade.price,
    }
}

impl<'g, M: Market, C: Check> Gate<'g, M, C> {
    /// Tells a side of a trade to the checks, and does what that trips.
    fn fill(&mut self, fill: Fill) -> Effect
        ensures effect { result ≡ fill_effect fill (state_of M.Market C.Check self.old) }
        ensures after { state_of M.Market C.Check self.new ≡ fill_told fill (state_of M.Market C.Check self.old) }
    {
        let acronym = self.row(fill.login).acronym();
        self.notice(fill.login, Notice::Filled { acronym, fill })
    }

    /// Lets the market trade one pair, if one crosses, and tells the buyer and then the seller.
    pub fn strike(&mut self) -> Result<Option<Struck>, Refusal>
        ensures { Steps M.Market C.Check self.old (Event.Strike result) self.new }
    {
        let Some(trade) = self.market.strike()? else {
            return Ok(None);
        };
        let buy = self.fill(side_of(trade, Side::Buy));
        let sell = self.fill(side_of(trade, Side::Sell));
        Ok(Some(Struck { trade, buy, sell }))
    }
}
