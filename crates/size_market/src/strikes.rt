//! A strike by size: the round that it trades in, and the share that is next.

ghost use Rattle.std.specs.Prelude.{◌≡◌, []};
ghost use Rattle.terms.specs.Kinds.{side_number};
ghost use Rattle.tables.specs.Held.{book_of, resting_of};
ghost use Rattle.size_market.specs.Going.{Going};
ghost use Rattle.size_market.specs.Steps.{Current, IsDue};

use crate::round::{Due, Round};
use crate::state::SizeMarket;
use shares::share;
use tables::Tables;
use terms::{Contracts, Side};

/// The round that the lowest series that crosses opens.
fn open_round(tables: &Tables<'_>) -> Option<Round>
    ensures { Current (book_of tables.now) [] result }
{
    let crossing = tables.crossing()?;
    let (maker, taker) = tables.by_age(crossing);
    let rest = tables.makers_sum(crossing.series, taker.side.other(), maker.price);
    Some(Round {
        series: crossing.series,
        taker,
        price: maker.price,
        left: u64::from(taker.contracts).min(rest),
        passed: 0,
        rest,
    })
}

impl<'a> SizeMarket<'a> {
    ghost use Rattle.size_market.specs.Meaning.{round_of};

    /// The round that a strike trades in: the one that is open, or else the one that now opens.
    pub(crate) fn current(&self) -> Option<Round>
        ensures { Current (book_of self.now.tables) (round_of self.now) result }
    {
        // Not `or_else`: the check learns nothing of what its closure answers here.
        match self.round {
            Some(round) => Some(round),
            None => open_round(&self.tables),
        }
    }
}

/// The first maker with a share above 0, of those that were not passed.
pub(crate) fn next_due(tables: &Tables<'_>, round: Round) -> Due
    requires { Going (resting_of tables.now) round }
    ensures { IsDue (resting_of tables.now) round result }
{
    let side = round.taker.side.other();
    // Counted by hand: the tables give a maker by how many come before it, and no iterator over them.
    let (mut passed, mut rest) = (round.passed, round.rest);
    while let Some(maker) = tables.maker(round.series, side, round.price, passed) {
        let contracts = u64::from(maker.contracts);
        if let Ok(share) = Contracts::try_from(share(round.left, contracts, rest)) {
            let round = Round {
                passed,
                rest,
                ..round
            };
            return Due {
                round,
                maker,
                share,
            };
        }
        passed += 1;
        rest -= contracts;
    }
    unreachable()
}
