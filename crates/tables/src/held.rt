//! What a market does to its two tables, but for a strike.

ghost use Rattle.std.specs.Prelude.{◌≡◌, ◌-◌, ◌<◌, ◌≤◌, map, length, IfOk};
ghost use Rattle.terms.specs.Kinds.{reach_number};
ghost use Rattle.market.specs.Book.{empty as empty_book};
ghost use Rattle.chains.specs.Asks.{without_all, saturated};
ghost use Rattle.chains.specs.Lists.{lists, places as places_of, total, appended};
ghost use Rattle.market.specs.Market.{Rested, Withdrawn, Swept, Shown, Dropped, Bare};
ghost use Rattle.market.specs.Seen.{seen, seen_oldest};
ghost use Rattle.tables.specs.Held.{book_of, LongEnough, Asked};
ghost use Rattle.tables.specs.Tally.{tally, weighed};

use crate::picks::{InReach, IsFor, Left, OfLogin};
use crate::state::Tables;
use chains::{Chains, Slot, Test};
use terms::{Entry, Login, OrderNumber, Reach, Refusal, Series, Slip};

/// How many entries a login may rest.
const ALLOTMENT: usize = 16;

/// Slots for 16 entries of each of 24 logins, and one that is not used.
pub const ENTRY_SLOTS: usize = 385;

/// Slots for 64 slips at least, and one that is not used.
pub const SLIP_SLOTS: usize = 65;

/// Puts an item at the end of a chain, where there is a place for it.
pub(crate) fn append<T: Copy, const N: usize>(chains: &mut Chains<'_, T, N>, k: usize, item: T)
    requires chain { k < N }
    requires room { total (lists chains.old) < places_of chains.old }
    ensures appended { lists chains.new ≡ appended (lists chains.old) k item }
    ensures places { places_of chains.new ≡ places_of chains.old }
{
    let _ = chains.push_back(k, item);
}

/// Takes off every entry that meets the test, and gives their contracts; the largest u64 stands for all above it.
fn take_off<P: Test<Entry>>(entries: &mut Chains<'_, Entry, 16>, test: &P) -> u64
    ensures sum { result ≡ saturated (weighed (λ e. e.contracts.value) (P.Test.meets test.now) (lists entries.old)) }
    ensures left { lists entries.new ≡ map (without_all (P.Test.meets test.now)) (lists entries.old) }
    ensures places { places_of entries.new ≡ places_of entries.old }
{
    entries.facts();
    let mut sum: u64 = 0;
    // A loop: of a closure that changes the chains a proof learns nothing.
    for k in 0..16 {
        sum = sum.saturating_add(entries.remove_all(k, test, &Left));
    }
    sum
}

// what a market does
impl<'a> Tables<'a> {
    /// How many entries of all series meet the test.
    fn count_of<P: Test<Entry>>(&self, test: &P) -> usize
        ensures { result ≡ tally (P.Test.meets test.now) (lists self.now.entries) }
    {
        self.entries.facts();
        // that the counts together fit, which is known once the number of all entries is
        let _ = self.entries.len();
        (0..16).map(|k| self.entries.count_of(k, test)).sum()
    }

    /// Puts an entry last in its series, unless its login rests that number already, or rests 16 entries.
    pub fn rest(&mut self, series: Series, entry: Entry) -> Result<(), Refusal>
        ensures { Rested (book_of self.old) series.value (seen entry) result (book_of self.new) }
    {
        let used = self.count_of(&IsFor {
            login: entry.login,
            number: entry.number,
        });
        if used > 0 {
            return Err(Refusal::InUse);
        }
        let resting = self.count_of(&OfLogin { login: entry.login });
        if resting >= ALLOTMENT {
            return Err(Refusal::Allotment);
        }
        self.entries.facts();
        append(&mut self.entries, series.index(), entry);
        Ok(())
    }

    /// Takes off a login's entry by number, and answers its contracts left.
    pub fn withdraw(&mut self, login: Login, number: OrderNumber) -> Result<u32, Refusal>
        ensures { Withdrawn (book_of self.old) login.value number.value result (book_of self.new) }
    {
        let test = IsFor { login, number };
        let found = self.count_of(&test);
        if found == 0 {
            return Err(Refusal::NoOrder);
        }
        Ok(take_off(&mut self.entries, &test) as u32)
    }

    /// Takes off a login's entries within a reach, and answers their contracts: of 16 entries at most.
    pub fn sweep(&mut self, login: Login, reach: Reach) -> u32
        ensures swept { Swept (book_of self.old) login.value (reach_number reach) result (book_of self.new) }
        ensures bound { result ≤ 1048560 }
    {
        take_off(&mut self.entries, &InReach { login, reach }) as u32
    }

    /// A login's oldest slip.
    pub fn first_slip(&self, login: Login) -> Option<Slip>
        ensures { Shown (book_of self.now) login.value (seen_oldest result) }
    {
        self.slips.facts();
        self.slips.front(login.index())
    }

    /// Removes a login's oldest slip, and answers it.
    pub fn drop_slip(&mut self, login: Login) -> Option<Slip>
        ensures { Dropped (book_of self.old) login.value (seen_oldest result) (book_of self.new) }
    {
        self.slips.facts();
        self.slips.pop_front(login.index())
    }

    /// Whether nothing rests and nothing waits.
    #[tactic(auto, using(crate::proofs::Slips::bare_slips, crate::proofs::Slips::bare_entries))]
    pub fn is_bare(&self) -> bool
        ensures { Bare (book_of self.now) result }
    {
        self.facts();
        self.entries.len() == 0 && self.slips.len() == 0
    }

    /// There are 16 series and 24 logins.
    pub fn facts(&self)
        ensures series { length (book_of self.now).resting ≡ 16 }
        ensures logins { length (book_of self.now).slips ≡ 24 }
    {
        self.entries.facts();
        self.slips.facts();
    }
}

// making
impl<'a> Tables<'a> {
    /// Empty tables over slots that are long enough. The first slot of each is not used.
    pub fn new(entries: &'a mut [Slot<Entry>], slips: &'a mut [Slot<Slip>]) -> Tables<'a>
        requires { LongEnough (length entries.old) (length slips.old) }
        ensures { book_of result ≡ empty_book (length slips.old - 1) }
    {
        Tables {
            entries: Chains::new(entries),
            slips: Chains::new(slips),
        }
    }

    /// The same over any slots; refused where they are not long enough.
    // No clause says that nothing is written: a slice that a result borrows has no value after the call.
    pub fn try_new(
        entries: &'a mut [Slot<Entry>],
        slips: &'a mut [Slot<Slip>],
    ) -> Result<Tables<'a>, Refusal>
        ensures asked { Asked (LongEnough (length entries.old) (length slips.old)) result }
        ensures empty { IfOk result (λ t. book_of t ≡ empty_book (length slips.old - 1)) }
    {
        long_enough(entries, slips)?;
        Ok(Tables::new(entries, slips))
    }
}

/// Whether slots for entries and for slips are long enough for a market: 385 and 65 places.
pub fn long_enough(entries: &[Slot<Entry>], slips: &[Slot<Slip>]) -> Result<(), Refusal>
    ensures { Asked (LongEnough (length entries.now) (length slips.now)) result }
{
    if entries.len() < ENTRY_SLOTS || slips.len() < SLIP_SLOTS {
        return Err(Refusal::ShortTable);
    }
    Ok(())
}
