//! A round as it stands between two strikes, and the share that it trades next.

ghost use Rattle.std.specs.Prelude.{◌≡◌, ◌+◌, ◌≤◌, if◌then◌else◌, None};
ghost use Rattle.size_market.specs.Steps.{Next, crossing_of};

use tables::Crossing;
use terms::{Contracts, Entry, Price, Series, Side};

/// The taker, with the contracts that it has left; the makers' price; how much is left to give out; how many makers at the price
/// were passed, and the contracts of those that were not. Shares are not stored: what was passed and what is left give them again.
#[derive(Clone, Copy)]
pub struct Round {
    pub(crate) series: Series,
    pub(crate) taker: Entry,
    pub(crate) price: Price,
    pub(crate) left: u64,
    pub(crate) passed: usize,
    pub(crate) rest: u64,
}

/// The maker that trades next, its share, and the round with the makers before it passed.
#[derive(Clone, Copy)]
pub struct Due {
    pub(crate) round: Round,
    pub(crate) maker: Entry,
    pub(crate) share: Contracts,
}

/// What is left of a round by another call, which ends it where it is accepted. A function, so that what rest and withdraw do with their round has one contract.
pub(crate) fn kept(round: Option<Round>, accepted: bool) -> Option<Round>
    ensures { result ≡ (if accepted then None else round) }
{
    if accepted { None } else { round }
}

impl Due {
    /// The taker and the maker, as a buy and a sell.
    pub(crate) fn crossing(self) -> Crossing
        ensures { result ≡ crossing_of self }
    {
        let series = self.round.series;
        match self.round.taker.side {
            Side::Buy => Crossing {
                series,
                buy: self.round.taker,
                sell: self.maker,
            },
            Side::Sell => Crossing {
                series,
                buy: self.maker,
                sell: self.round.taker,
            },
        }
    }

    /// The round once the share is traded. A maker that is left with contracts was passed; one that is left with none is gone. No round is left where
    /// the taker or the shares are used up.
    pub(crate) fn round_after(self) -> Option<Round>
        requires left { self.share.value ≤ self.round.left }
        requires taken { self.round.left ≤ self.round.taker.contracts.value }
        requires maker { self.share.value ≤ self.maker.contracts.value }
        requires rest { self.maker.contracts.value ≤ self.round.rest }
        requires bound { self.round.passed + self.round.rest ≤ 25165440 }
        ensures { Next self result }
    {
        let (round, share) = (self.round, u64::from(self.share));
        let left = round.left - share;
        if left == 0 {
            return None;
        }
        let contracts = Contracts::try_from(u64::from(round.taker.contracts) - share).ok()?;
        let stays = self.maker.contracts > self.share;
        Some(Round {
            taker: Entry {
                contracts,
                ..round.taker
            },
            left,
            passed: round.passed + usize::from(stays),
            rest: round.rest - u64::from(self.maker.contracts),
            ..round
        })
    }
}
