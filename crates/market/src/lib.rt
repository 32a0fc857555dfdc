//! What a market is: a book of what rests and what waits, and what each of its functions answers and does to it.

#![tactic(auto)]

ghost use Rattle.std.specs.Prelude.{◌≡◌, ◌≤◌, length};
ghost use Rattle.terms.specs.Kinds.{reach_number};
ghost use Rattle.market.specs.Book.{Book};
ghost use Rattle.market.specs.Market.{Rested, Withdrawn, Swept, Struck, Shown, Dropped, Bare};
ghost use Rattle.market.specs.Seen.{seen, seen_oldest};

use terms::{Entry, Login, OrderNumber, Reach, Refusal, Series, Slip, Trade};

/// A market, by its book. Free is only which crossing pair it strikes, how much and at what price.
pub trait Market {
    ghost book: { Self → Book };

    /// Puts an entry last in its series, unless its login rests that number already, or rests 16 entries.
    fn rest(&mut self, series: Series, entry: Entry) -> Result<(), Refusal>
        ensures { Rested (book self.old) series.value (seen entry) result (book self.new) };

    /// Takes off a login's entry by number, and answers its contracts left.
    fn withdraw(&mut self, login: Login, number: OrderNumber) -> Result<u32, Refusal>
        ensures { Withdrawn (book self.old) login.value number.value result (book self.new) };

    /// Takes off a login's entries within a reach, and answers their contracts: of 16 entries at most.
    fn sweep(&mut self, login: Login, reach: Reach) -> u32
        ensures does { Swept (book self.old) login.value (reach_number reach) result (book self.new) }
        ensures bound { result ≤ 1048560 };

    /// Trades one crossing pair, if there is one and two slip places are free.
    fn strike(&mut self) -> Result<Option<Trade>, Refusal>
        ensures { Struck (book self.old) result (book self.new) };

    /// A login's oldest slip.
    fn first_slip(&self, login: Login) -> Option<Slip>
        ensures { Shown (book self.now) login.value (seen_oldest result) };

    /// Removes a login's oldest slip, and answers it.
    fn drop_slip(&mut self, login: Login) -> Option<Slip>
        ensures { Dropped (book self.old) login.value (seen_oldest result) (book self.new) };

    /// Whether nothing rests and nothing waits.
    fn is_bare(&self) -> bool
        ensures { Bare (book self.now) result };

    // There are 16 series and 24 logins.
    ghost series: { (m : Self) → length (book m).resting ≡ 16 };

    ghost logins: { (m : Self) → length (book m).slips ≡ 24 };
}
