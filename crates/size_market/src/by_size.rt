//! The market by size, as a market.

ghost use Rattle.std.specs.Prelude.{◌≡◌, ◌-◌, ◌≤◌, [], length};
ghost use Rattle.terms.specs.Kinds.{reach_number};
ghost use Rattle.market.specs.Book.{empty as empty_book};
ghost use Rattle.market.specs.Market.{Rested, Withdrawn, Swept, Struck, Dropped};
ghost use Rattle.market.specs.Seen.{seen, seen_oldest};
ghost use Rattle.tables.specs.Cross.{Even};
ghost use Rattle.tables.specs.Held.{book_of, LongEnough};
ghost use Rattle.size_market.specs.Size.{size_answer, round_after, ended_by, Lawful};
ghost use Rattle.tables.proofs.Counts.{series_count, logins_count};
ghost use Rattle.size_market.specs.Meaning.{round_of};

use crate::round::kept;
use crate::state::SizeMarket;
use crate::strikes::next_due;
use chains::Slot;
use market::Market;
use tables::Tables;
use terms::{Entry, Login, OrderNumber, Reach, Refusal, Series, Slip, Trade};

// It has no `try_new`, as `TimeMarket` has: the check does not cover a `Result` of a struct that holds a lent slice and, in its round, numbers with ghost fields.
impl<'a> SizeMarket<'a> {
    /// An empty market over slots that are long enough, which `tables::long_enough` tells. The first slot of each is not used.
    pub fn new(entries: &'a mut [Slot<Entry>], slips: &'a mut [Slot<Slip>]) -> SizeMarket<'a>
        requires { LongEnough (length entries.old) (length slips.old) }
        ensures empty { book_of result.tables ≡ empty_book (length slips.old - 1) }
        ensures round { round_of result ≡ [] }
    {
        SizeMarket {
            tables: Tables::new(entries, slips),
            round: None,
        }
    }
}

impl<'a> Market for SizeMarket<'a> {
    ghost book = { λ m. book_of m.tables };

    /// Ends the round where it is accepted.
    fn rest(&mut self, series: Series, entry: Entry) -> Result<(), Refusal>
        ensures rested { Rested (book_of self.old.tables) series.value (seen entry) result (book_of self.new.tables) }
        ensures round { round_of self.new ≡ ended_by result (round_of self.old) }
    {
        let rested = self.tables.rest(series, entry);
        self.round = kept(self.round, rested.is_ok());
        rested
    }

    /// Ends the round where it is accepted.
    fn withdraw(&mut self, login: Login, number: OrderNumber) -> Result<u32, Refusal>
        ensures withdrawn { Withdrawn (book_of self.old.tables) login.value number.value result (book_of self.new.tables) }
        ensures round { round_of self.new ≡ ended_by result (round_of self.old) }
    {
        let withdrawn = self.tables.withdraw(login, number);
        self.round = kept(self.round, withdrawn.is_ok());
        withdrawn
    }

    /// Ends the round, also where it takes nothing off.
    fn sweep(&mut self, login: Login, reach: Reach) -> u32
        ensures does { Swept (book_of self.old.tables) login.value (reach_number reach) result (book_of self.new.tables) }
        ensures bound { result ≤ 1048560 }
        ensures round { round_of self.new ≡ [] }
    {
        self.round = None;
        self.tables.sweep(login, reach)
    }

    /// Trades the next share above 0 of the round that is open; where none is, one is opened.
    fn strike(&mut self) -> Result<Option<Trade>, Refusal>
        ensures struck { Struck (book_of self.old.tables) result (book_of self.new.tables) }
        ensures exact { result ≡ size_answer (book_of self.old.tables) (round_of self.old) }
        ensures round { round_of self.new ≡ round_after (book_of self.old.tables) (round_of self.old) }
        ensures lawful { Lawful (book_of self.old.tables) (round_of self.old) result }
        ensures even { Even (book_of self.old.tables) result (book_of self.new.tables) }
    {
        let Some(round) = self.current() else {
            return Ok(None);
        };
        self.tables.facts();
        if !self.tables.slips_fit() {
            return Err(Refusal::SlipsFull);
        }
        let due = next_due(&self.tables, round);
        let trade = self
            .tables
            .trade(due.crossing(), due.share, due.round.price);
        self.round = due.round_after();
        Ok(Some(trade))
    }

    fn first_slip(&self, login: Login) -> Option<Slip> {
        self.tables.first_slip(login)
    }

    /// Leaves the round as it is.
    fn drop_slip(&mut self, login: Login) -> Option<Slip>
        ensures dropped { Dropped (book_of self.old.tables) login.value (seen_oldest result) (book_of self.new.tables) }
        ensures round { round_of self.new ≡ round_of self.old }
    {
        self.tables.drop_slip(login)
    }

    fn is_bare(&self) -> bool {
        self.tables.is_bare()
    }

    ghost series = { λ m. series_count m.tables };

    ghost logins = { λ m. logins_count m.tables };
}
