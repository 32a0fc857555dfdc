//! What a strike goes by, and what it does: crossings, which of two is older, a trade.

ghost use Rattle.std.specs.Prelude.{◌≡◌, ℕ, ◌+◌, ◌<◌, ◌≤◌, false, not, [], ◌∷◌, ◌++◌, map, Some, Ok, ◌≢◌};
ghost use Rattle.std.specs.Option.{option_map};
ghost use Rattle.chains.specs.Lists.{places as places_of};
ghost use Rattle.terms.specs.Kinds.{side_number};
ghost use Rattle.market.specs.Book.{totals, slip_count, with_slips_of, waiting_of};
ghost use Rattle.market.specs.Market.{filled_in, side_traded, slips_full, Struck};
ghost use Rattle.market.specs.Seen.{seen, seen_slip};
ghost use Rattle.tables.specs.Cross.{on_side, best_on, crossing_at, lowest, seen_crossing, before, older, younger, fill_of, trade_of, Stands, Meet, Fair, BothLose};
ghost use Rattle.tables.specs.Held.{book_of, resting_of, series_of, slips_of};

use crate::cross::Crossing;
use crate::held::append;
use crate::picks::{Best, Either, IsFor, Names, OnSide};
use crate::state::Tables;
use chains::Test;
use terms::{Contracts, Entry, Login, Party, Price, Series, Side, Slip, Trade};

// questions
impl<'a> Tables<'a> {
    /// The buy of a series with the highest price, or the sell with the lowest; the oldest among equals.
    fn best(&self, series: Series, side: Side) -> Option<Entry>
        ensures { option_map seen result ≡ best_on side (series_of self.now series) }
    {
        self.entries.facts();
        self.entries
            .best(series.index(), &OnSide { side }, &Best { side })
    }

    /// The best buy and the best sell of the series of a number, if there is one and they cross.
    #[tactic(auto, using(crate::proofs::Meeting::no_series, crate::proofs::Meeting::pair_past))]
    fn crossing_in(&self, number: u64) -> Option<Crossing>
        ensures { option_map seen_crossing result ≡ crossing_at (resting_of self.now) number }
    {
        self.facts();
        let series = Series::try_from(number).ok()?;
        let buy = self.best(series, Side::Buy)?;
        let sell = self.best(series, Side::Sell)?;
        if sell.price > buy.price {
            return None;
        }
        Some(Crossing { series, buy, sell })
    }

    /// The lowest series that crosses, with its best buy and its best sell.
    pub fn crossing(&self) -> Option<Crossing>
        ensures { option_map seen_crossing result ≡ lowest (resting_of self.now) }
    {
        self.facts();
        (1..=16).find_map(|number| self.crossing_in(number))
    }

    /// Whether one of two entries of a series comes before the other.
    pub fn is_before(&self, series: Series, one: Entry, other: Entry) -> bool
        ensures { result ≡ before (seen one) (seen other) (series_of self.now series) }
    {
        self.entries.facts();
        let test = Either {
            one: IsFor {
                login: one.login,
                number: one.number,
            },
            other: IsFor {
                login: other.login,
                number: other.number,
            },
        };
        // A match, whose two arms the proof follows.
        match self.entries.first(series.index(), &test) {
            Some(first) => test.one.meets(&first),
            None => false,
        }
    }

    /// The older and the younger of the buy and the sell of a crossing.
    pub fn by_age(&self, crossing: Crossing) -> (Entry, Entry)
        ensures older { seen result.0 ≡ older (series_of self.now crossing.series) (seen_crossing crossing).pair }
        ensures younger { seen result.1 ≡ younger (series_of self.now crossing.series) (seen_crossing crossing).pair }
    {
        if self.is_before(crossing.series, crossing.buy, crossing.sell) {
            (crossing.buy, crossing.sell)
        } else {
            (crossing.sell, crossing.buy)
        }
    }

    /// Whether two slip places are free.
    #[tactic(auto, using(crate::proofs::Trades::room_test))]
    pub fn slips_fit(&self) -> bool
        ensures { result ≡ not (slips_full (book_of self.now)) }
    {
        self.slips.room() >= 2
    }
}

// a trade
impl<'a> Tables<'a> {
    /// Takes contracts from an entry of a series; it keeps its place, or goes if none are left.
    fn fill(&mut self, series: Series, entry: Entry, contracts: Contracts)
        requires stands { Stands (series_of self.old series) (seen entry) }
        requires enough { contracts.value ≤ entry.contracts.value }
        ensures filled { (price : ℕ) → resting_of self.new ≡ map (filled_in (fill_of (seen entry) contracts.value price)) (resting_of self.old) }
        ensures slips { self.new.slips ≡ self.old.slips }
        ensures own { totals (on_side (side_number entry.side)) (resting_of self.new) + contracts.value ≡ totals (on_side (side_number entry.side)) (resting_of self.old) }
        ensures others { (side : ℕ) → (side_number entry.side ≢ side) → totals (on_side side) (resting_of self.new) ≡ totals (on_side side) (resting_of self.old) }
    {
        self.entries.facts();
        let test = Names { entry };
        let left = u64::from(entry.contracts) - u64::from(contracts);
        match Contracts::try_from(left) {
            Ok(contracts) => {
                let _ = self
                    .entries
                    .replace_first(series.index(), &test, Entry { contracts, ..entry });
            }
            Err(_) => {
                let _ = self.entries.remove_first(series.index(), &test);
            }
        }
    }

    /// Puts a slip last for a login.
    fn give_slip(&mut self, login: Login, slip: Slip)
        requires { slip_count (slips_of self.old) < places_of self.old.slips }
        ensures given { book_of self.new ≡ with_slips_of (book_of self.old) login.value (waiting_of (book_of self.old) login.value ++ seen_slip slip ∷ []) }
        ensures more { slip_count (slips_of self.new) ≡ slip_count (slips_of self.old) + 1 }
    {
        self.slips.facts();
        append(&mut self.slips, login.index(), slip);
    }

    /// One side of a trade: its entry is filled, and its login gets a slip.
    fn trade_side(&mut self, series: Series, entry: Entry, contracts: Contracts, price: Price)
        requires stands { Stands (series_of self.old series) (seen entry) }
        requires enough { contracts.value ≤ entry.contracts.value }
        requires room { slip_count (slips_of self.old) < places_of self.old.slips }
        ensures traded { book_of self.new ≡ side_traded (fill_of (seen entry) contracts.value price.value) (book_of self.old) }
        ensures more { slip_count (slips_of self.new) ≡ slip_count (slips_of self.old) + 1 }
        ensures own { totals (on_side (side_number entry.side)) (resting_of self.new) + contracts.value ≡ totals (on_side (side_number entry.side)) (resting_of self.old) }
        ensures others { (side : ℕ) → (side_number entry.side ≢ side) → totals (on_side side) (resting_of self.new) ≡ totals (on_side side) (resting_of self.old) }
    {
        self.fill(series, entry, contracts);
        self.give_slip(
            entry.login,
            Slip {
                number: entry.number,
                side: entry.side,
                contracts,
                price,
            },
        );
    }

    /// Trades contracts of a buy and a sell of a series, at a price from the sell's to the buy's.
    pub fn trade(&mut self, crossing: Crossing, contracts: Contracts, price: Price) -> Trade
        requires meet { Meet (series_of self.old crossing.series) (seen crossing.buy) (seen crossing.sell) }
        requires fair { Fair (seen crossing.buy) (seen crossing.sell) contracts.value price.value }
        requires room { slips_full (book_of self.old) ≡ false }
        ensures trade { result ≡ trade_of (seen crossing.buy) (seen crossing.sell) contracts.value price.value }
        ensures struck { Struck (book_of self.old) (Ok (Some result)) (book_of self.new) }
        ensures even { BothLose result.contracts (resting_of self.old) (resting_of self.new) }
    {
        self.facts();
        let (buy, sell) = (crossing.buy, crossing.sell);
        self.trade_side(crossing.series, buy, contracts, price);
        self.trade_side(crossing.series, sell, contracts, price);
        Trade {
            buyer: buy.into(),
            seller: sell.into(),
            contracts: contracts.into(),
            price: price.into(),
        }
    }
}
