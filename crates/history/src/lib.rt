//! What a gate's day means (specs/), and what holds of every day, over any check and any market.

#![tactic(auto)]

ghost use Rattle.history.specs.Days.{small, full_day, FirstDay, TripDay, Refused, ToldApart};
ghost use Rattle.history.specs.Step.{Happens};
ghost use Rattle.history.specs.Laws.{AlwaysInOrder, CallLaws, SweepsByLogin};
ghost use Rattle.history.specs.Promises.{Isolation, ContractSum, Holds, EveryDay};

use checks::Check;

/// Isolation: where a firm's parts of two runs are alike, so are its answers, whatever others sent and the markets chose.
pub fn firms_stand_apart<C: Check>()
    ensures { Isolation C.Check.meaning }
{}

/// Contract sum: what a firm had accepted was receipted, waits on slips, rests or was cancelled; and its slips name what it had accepted.
pub fn contracts_add_up<C: Check>()
    ensures { ContractSum C.Check.meaning }
{}

/// Holds: an entry is answered 21 exactly when its login or its firm is held, by the events alone.
pub fn holds_stop_entries<C: Check>()
    ensures { Holds C.Check.meaning }
{}

/// All three, of any one run: what a gate can promise of its own day, as far as it has come.
pub fn days_keep_promises<C: Check>()
    ensures { EveryDay C.Check.meaning }
{}

/// What a gate's tables hold after every event.
pub fn always_in_order<C: Check>()
    ensures { AlwaysInOrder C.Check.meaning }
{}

/// What calls do and never do: a refused one alters nothing, an accepted entry rests or is cancelled, a new firm finds no slip.
pub fn calls_keep_their_laws<C: Check>()
    ensures { CallLaws C.Check.meaning }
{}

/// Sweeping login by login takes off what a kill or a trip takes off.
pub fn sweeps_go_by_login<C: Check>()
    ensures { SweepsByLogin C.Check.meaning }
{}

/// A day worked out from the definitions: a trade, slips taken and receipted, a login that leaves and passes on, holds and releases.
pub fn first_day()
    ensures { FirstDay }
{}

/// A day of trips: of a login and its firm at once, and of a firm by a turn-down.
pub fn trip_day()
    ensures { TripDay }
{}

/// A day on which the slips are full.
pub fn full_day()
    ensures { Happens small tt 1 full_day }
{}

/// Every refusal of every call, worked out.
pub fn refusals()
    ensures { Refused }
{}

/// Where a wrong reading of the rules would give another answer.
pub fn readings_told_apart()
    ensures { ToldApart }
{}
