//! The entries of a series on one side at one price: the makers that a trade by size is shared among.

ghost use Rattle.std.specs.Prelude.{◌≡◌, ◌≤◌, drop, filter};
ghost use Rattle.std.specs.Option.{option_map};
ghost use Rattle.chains.specs.Asks.{oldest};
ghost use Rattle.terms.specs.Kinds.{side_number};
ghost use Rattle.market.specs.Book.{total};
ghost use Rattle.market.specs.Seen.{seen};
ghost use Rattle.tables.specs.Cross.{at_price};
ghost use Rattle.tables.specs.Held.{series_of};

use crate::picks::{AtPrice, Left};
use crate::state::Tables;
use terms::{Entry, Price, Series, Side};

impl<'a> Tables<'a> {
    /// The entry of a series on a side at a price that comes after `n` others there, if there is one.
    pub fn maker(&self, series: Series, side: Side, price: Price, n: usize) -> Option<Entry>
        ensures { option_map seen result ≡ oldest (drop n (filter (at_price (side_number side) price.value) (series_of self.now series))) }
    {
        self.entries.facts();
        self.entries
            .nth_of(series.index(), &AtPrice { side, price }, n)
    }

    /// The contracts of all entries of a series on a side at a price: of 384 entries at most.
    pub fn makers_sum(&self, series: Series, side: Side, price: Price) -> u64
        ensures sum { result ≡ total (at_price (side_number side) price.value) (series_of self.now series) }
        ensures bound { result ≤ 25165440 }
    {
        self.entries.facts();
        self.entries
            .sum_of(series.index(), &AtPrice { side, price }, &Left)
    }
}
