//! Shares by size: R contracts given out over makers, oldest first.

#![tactic(auto)]

ghost use Rattle.std.specs.Prelude.{◌≡◌, ◌≤◌};
ghost use Rattle.shares.specs.Shares.{SharesSum, SharesWithin, SharesLength, SharesWorked, share as share_of};
ghost use Rattle.shares.specs.Rounds.{StrikeTakesNext, StrikeKeepsCovered, RoundGoesOn, RoundTradesShares, RoundTradesAll, StrikeAlone};

/// What holds of all shares: they sum to R, none exceeds its maker's contracts, and there is one for each maker; and worked cases.
pub fn shares_stand()
    ensures sum { SharesSum }
    ensures within { SharesWithin }
    ensures length { SharesLength }
    ensures worked { SharesWorked }
{}

/// One maker's share of `left`: left × contracts ÷ total, a half rounded up, where total is the contracts of the maker and of those after it; 0 where the total is 0.
pub fn share(left: u64, contracts: u64, total: u64) -> u64
    requires left { left ≤ total }
    requires contracts { contracts ≤ total }
    requires total { total ≤ 25165440 }
    ensures { result ≡ share_of left contracts total }
{
    if total == 0 {
        return 0;
    }
    (2 * (left * contracts) + total) / (2 * total)
}

/// What holds of all rounds: each strike trades the next share above 0, and strikes until nothing is left trade exactly the shares, which sum to R.
pub fn rounds_stand()
    ensures next { StrikeTakesNext }
    ensures covered { StrikeKeepsCovered }
    ensures on { RoundGoesOn }
    ensures trades { RoundTradesShares }
    ensures all { RoundTradesAll }
    ensures alone { StrikeAlone }
{}
