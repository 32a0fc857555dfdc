//! The market by price, then time, as a market.

ghost use Rattle.std.specs.Prelude.{◌≡◌, ◌-◌, length, IfOk};
ghost use Rattle.market.specs.Book.{empty as empty_book};
ghost use Rattle.market.specs.Market.{Struck};
ghost use Rattle.tables.specs.Cross.{Even};
ghost use Rattle.tables.specs.Held.{book_of, LongEnough, Asked};
ghost use Rattle.tables.proofs.Counts.{series_count, logins_count};
ghost use Rattle.time_market.specs.Time.{time_answer, Orderly};

use chains::Slot;
use market::Market;
use tables::Tables;
use terms::{Entry, Login, OrderNumber, Reach, Refusal, Series, Slip, Trade};

/// A market by price, then time, in two lent tables.
#[derive(Drop)]
pub struct TimeMarket<'a> {
    pub(crate) tables: Tables<'a>,
}

impl<'a> TimeMarket<'a> {
    /// An empty market over slots that are long enough, which `tables::long_enough` tells. The first slot of each is not used.
    pub fn new(entries: &'a mut [Slot<Entry>], slips: &'a mut [Slot<Slip>]) -> TimeMarket<'a>
        requires { LongEnough (length entries.old) (length slips.old) }
        ensures { book_of result.tables ≡ empty_book (length slips.old - 1) }
    {
        TimeMarket {
            tables: Tables::new(entries, slips),
        }
    }

    /// The same over any slots; refused where they are not long enough.
    pub fn try_new(
        entries: &'a mut [Slot<Entry>],
        slips: &'a mut [Slot<Slip>],
    ) -> Result<TimeMarket<'a>, Refusal>
        ensures asked { Asked (LongEnough (length entries.old) (length slips.old)) result }
        ensures empty { IfOk result (λ m. book_of m.tables ≡ empty_book (length slips.old - 1)) }
    {
        let tables = Tables::try_new(entries, slips)?;
        Ok(TimeMarket { tables })
    }
}

impl<'a> Market for TimeMarket<'a> {
    ghost book = { λ m. book_of m.tables };

    fn rest(&mut self, series: Series, entry: Entry) -> Result<(), Refusal> {
        self.tables.rest(series, entry)
    }

    fn withdraw(&mut self, login: Login, number: OrderNumber) -> Result<u32, Refusal> {
        self.tables.withdraw(login, number)
    }

    fn sweep(&mut self, login: Login, reach: Reach) -> u32 {
        self.tables.sweep(login, reach)
    }

    /// Trades the best buy and the best sell of the lowest series that crosses, if two slip places are free: the smaller of their contracts, at the older's price.
    fn strike(&mut self) -> Result<Option<Trade>, Refusal>
        ensures struck { Struck (book_of self.old.tables) result (book_of self.new.tables) }
        ensures exact { result ≡ time_answer (book_of self.old.tables) }
        ensures orderly { Orderly (book_of self.old.tables) result }
        ensures even { Even (book_of self.old.tables) result (book_of self.new.tables) }
    {
        let Some(crossing) = self.tables.crossing() else {
            return Ok(None);
        };
        if !self.tables.slips_fit() {
            return Err(Refusal::SlipsFull);
        }
        self.tables.facts();
        let contracts = crossing.buy.contracts.min(crossing.sell.contracts);
        let (older, _) = self.tables.by_age(crossing);
        let trade = self.tables.trade(crossing, contracts, older.price);
        Ok(Some(trade))
    }

    fn first_slip(&self, login: Login) -> Option<Slip> {
        self.tables.first_slip(login)
    }

    fn drop_slip(&mut self, login: Login) -> Option<Slip> {
        self.tables.drop_slip(login)
    }

    fn is_bare(&self) -> bool {
        self.tables.is_bare()
    }

    ghost series = { λ m. series_count m.tables };

    ghost logins = { λ m. logins_count m.tables };
}
