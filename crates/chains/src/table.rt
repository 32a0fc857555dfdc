//! The chained table. Its meaning is the list of each chain, oldest first.

ghost use Rattle.std.specs.Prelude.{◌≡◌, ◌+◌, ◌-◌, ◌<◌, ◌≤◌, ◌↔◌, List, [], ◌∷◌, length, drop, replicate, sum_by, filter, slice_index, slice_index_or, IsOk, OnOk, OnErr, IfSome, IfNone};
ghost use Rattle.chains.specs.Sound.{Kept};
ghost use Rattle.chains.specs.Slots.{nexts, items};
ghost use Rattle.chains.specs.Chain.{at as standing};
ghost use Rattle.chains.specs.Asks.{NoneOf, oldest, Became, without_first, without_all, replaced_first, best as best_of, Leads, saturated};
ghost use Rattle.chains.specs.Steps.{Walked, Unlinked, Found};
ghost use Rattle.std.specs.Cmp.{IsStrictWeakOrder};

use crate::asks::{Any, Order, Test, Weight};
use crate::error::Full;
use crate::slots::{Slot, follow, link_all, peek, set_item, set_next};
use crate::walks::{Spot, Walk};

/// The first and the last place of a chain, both 0 where it has no items.
#[derive(Clone, Copy)]
struct Ends {
    head: usize,
    tail: usize,
}

impl Ends {
    /// The ends once place `n` is last.
    fn with_last(self, n: usize) -> Ends
        ensures empty { self.tail ≡ 0 → result.head ≡ n }
        ensures head { 0 < self.tail → result.head ≡ self.head }
        ensures tail { result.tail ≡ n }
    {
        Ends {
            head: if self.tail == 0 { n } else { self.head },
            tail: n,
        }
    }

    /// The ends once the place between `prev` and `next` is off; each of the two is 0 where there is none.
    fn without(self, prev: usize, next: usize) -> Ends
        ensures first { prev ≡ 0 → result.head ≡ next }
        ensures head { 0 < prev → result.head ≡ self.head }
        ensures last { next ≡ 0 → result.tail ≡ prev }
        ensures tail { 0 < next → result.tail ≡ self.tail }
    {
        Ends {
            head: if prev == 0 { next } else { self.head },
            tail: if next == 0 { prev } else { self.tail },
        }
    }
}

/// N chains of items in a lent table. A chain is asked for by its number, which a call requires to be below N, as a slice's item by its index.
#[derive(Drop)]
pub struct Chains<'a, T, const N: usize> {
    table: &'a mut [Slot<T>],
    ends: [Ends; N],
    free: usize,
    room: usize,
    ghost kept: { Kept N table.now ends free room },
}

// the table as a whole
impl<'a, T: Copy, const N: usize> Chains<'a, T, N> {
    ghost use Rattle.chains.specs.Lists.{lists, places as places_of, total};

    /// Empty chains over the places of `table` but place 0, which is not used.
    pub fn new(table: &'a mut [Slot<T>]) -> Chains<'a, T, N>
        ensures empty { lists result ≡ replicate N [] }
        ensures places { places_of result ≡ length table.old - 1 }
    {
        let room = table.len().saturating_sub(1);
        let free = link_all(table);
        Chains {
            table,
            ends: [Ends { head: 0, tail: 0 }; N],
            free,
            room,
        }
    }

    /// There are N chains, and they hold no more items than there are places.
    pub fn facts(&self)
        ensures count { length (lists self.now) ≡ N }
        ensures room { total (lists self.now) ≤ places_of self.now }
    {}

    /// For how many more items there are places.
    pub fn room(&self) -> usize
        ensures { result + total (lists self.now) ≡ places_of self.now }
    {
        self.room
    }

    /// How many items there are in all chains.
    pub fn len(&self) -> usize
        ensures { result ≡ total (lists self.now) }
    {
        self.table.len().saturating_sub(1) - self.room
    }

    /// What stands at place `i`.
    fn slot(&self, i: usize) -> Slot<T>
        requires { i < length self.now.table.now }
        ensures next { result.next ≡ slice_index (nexts self.now.table.now) i }
        ensures item { standing (items self.now.table.now) i ≡ result.item ∷ [] }
    {
        peek(self.table, i)
    }
}

// questions of one chain
impl<'a, T: Copy, const N: usize> Chains<'a, T, N> {
    ghost use Rattle.chains.specs.Lists.{lists, parts};
    ghost use Rattle.chains.specs.Walks.{left, Starts};

    /// A walk along chain `k`.
    fn walk(&self, k: usize) -> Walk<'_, T>
        requires { k < N }
        ensures starts { Starts result self.now.table.now (slice_index (parts self.now).heads k) }
        ensures along { left result ≡ slice_index_or (lists self.now) k [] }
        ensures short { length (left result) ≤ length self.now.table.now }
    {
        Walk::new(self.table, self.ends[k].head)
    }

    /// The oldest item of chain `k`, if it has one.
    pub fn front(&self, k: usize) -> Option<T>
        requires { k < N }
        ensures { result ≡ oldest (slice_index_or (lists self.now) k []) }
    {
        self.walk(k).next().copied()
    }

    /// The first item of chain `k` that meets the test, if there is one.
    pub fn first<P: Test<T>>(&self, k: usize, test: &P) -> Option<T>
        requires { k < N }
        ensures { result ≡ oldest (filter (P.Test.meets test.now) (slice_index_or (lists self.now) k [])) }
    {
        self.nth_of(k, test, 0)
    }

    /// The item of chain `k` that comes after `n` others that meet the test, and meets it too, if there is one.
    pub fn nth_of<P: Test<T>>(&self, k: usize, test: &P, n: usize) -> Option<T>
        requires { k < N }
        ensures { result ≡ oldest (drop n (filter (P.Test.meets test.now) (slice_index_or (lists self.now) k []))) }
    {
        self.walk(k)
            .filter(|item| test.meets(*item))
            .nth(n)
            .copied()
    }

    /// How many items chain `k` has.
    pub fn count(&self, k: usize) -> usize
        requires { k < N }
        ensures { result ≡ length (slice_index_or (lists self.now) k []) }
    {
        self.walk(k).count()
    }

    /// How many items of chain `k` meet the test.
    pub fn count_of<P: Test<T>>(&self, k: usize, test: &P) -> usize
        requires { k < N }
        ensures { result ≡ length (filter (P.Test.meets test.now) (slice_index_or (lists self.now) k [])) }
    {
        self.walk(k).filter(|item| test.meets(*item)).count()
    }

    /// The sum of a number of each item of chain `k` that meets the test; the largest u64 stands for all above it.
    pub fn sum_of<P: Test<T>, W: Weight<T>>(&self, k: usize, test: &P, weight: &W) -> u64
        requires { k < N }
        ensures { result ≡ saturated (sum_by (W.Weight.weight weight.now) (filter (P.Test.meets test.now) (slice_index_or (lists self.now) k []))) }
    {
        self.walk(k).filter(|item| test.meets(*item)).fold(
            0u64,
            |sum, item| sum.saturating_add(u64::from(weight.weight(item))),
        )
    }

    /// The best item of chain `k` of those that meet the test, the first among equals.
    pub fn best<P: Test<T>, O: Order<T>>(&self, k: usize, test: &P, order: &O) -> Option<T>
        requires { k < N }
        ensures best { result ≡ best_of (O.Order.better order.now) (filter (P.Test.meets test.now) (slice_index_or (lists self.now) k [])) }
        ensures leads { IsStrictWeakOrder (O.Order.better order.now) → Leads (O.Order.better order.now) (filter (P.Test.meets test.now) (slice_index_or (lists self.now) k [])) result }
    {
        self.walk(k)
            .copied()
            .filter(|item| test.meets(item))
            .reduce(|best, next| if order.better(&next, &best) {
                next
            } else {
                best
            })
    }

    /// Where the first item of chain `k` that meets the test lies.
    fn find<P: Test<T>>(&self, k: usize, test: &P) -> Option<Spot>
        requires { k < N }
        ensures none { IfNone result (NoneOf (P.Test.meets test.now) (slice_index_or (lists self.now) k [])) }
        ensures found { IfSome result (λ s. Found (P.Test.meets test.now) (parts self.now) k s.prev s.here) }
    {
        self.walk(k).seek(test)
    }
}

// changes of one chain
impl<'a, T: Copy, const N: usize> Chains<'a, T, N> {
    ghost use Rattle.chains.specs.Lists.{lists, parts, places as places_of, total, changed, appended, Undoes};

    /// Puts `x` at the end of chain `k`, if a place is left.
    pub fn push_back(&mut self, k: usize, x: T) -> Result<(), Full>
        requires { k < N }
        ensures fits { IsOk result ↔ (total (lists self.old) < places_of self.old) }
        ensures pushed { OnOk result (lists self.new ≡ appended (lists self.old) k x) }
        ensures full { OnErr result (lists self.new ≡ lists self.old) }
        ensures places { places_of self.new ≡ places_of self.old }
    {
        let n = self.free;
        if n == 0 {
            return Err(Full);
        }
        let next = self.slot(n).next;
        let Chains {
            table,
            ends,
            free,
            room,
        } = self;
        *free = next;
        *room -= 1;
        set_item(table, n, x);
        set_next(table, n, 0);
        follow(table, ends[k].tail, n);
        ends[k] = ends[k].with_last(n);
        Ok(())
    }

    /// Takes the oldest item of chain `k`, if it has one.
    pub fn pop_front(&mut self, k: usize) -> Option<T>
        requires { k < N }
        ensures oldest { result ≡ oldest (slice_index_or (lists self.old) k []) }
        ensures left { lists self.new ≡ changed (drop 1) (lists self.old) k }
        ensures places { places_of self.new ≡ places_of self.old }
    {
        self.remove_first(k, &Any)
    }

    /// Takes the first item of chain `k` that meets the test, if there is one.
    pub fn remove_first<P: Test<T>>(&mut self, k: usize, test: &P) -> Option<T>
        requires { k < N }
        ensures first { result ≡ oldest (filter (P.Test.meets test.now) (slice_index_or (lists self.old) k [])) }
        ensures left { lists self.new ≡ changed (without_first (P.Test.meets test.now)) (lists self.old) k }
        ensures became { Became (P.Test.meets test.now) [] (slice_index_or (lists self.old) k []) (slice_index_or (lists self.new) k []) result }
        ensures undoes { Undoes (P.Test.meets test.now) k (lists self.old) (lists self.new) }
        ensures places { places_of self.new ≡ places_of self.old }
    {
        let spot = self.find(k, test)?;
        let item = self.slot(spot.here).item;
        self.unlink(k, spot);
        Some(item)
    }

    /// Takes every item of chain `k` that meets the test, and gives the sum of a number of each; the largest u64 stands for all above it.
    pub fn remove_all<P: Test<T>, W: Weight<T>>(&mut self, k: usize, test: &P, weight: &W) -> u64
        requires { k < N }
        ensures sum { result ≡ saturated (sum_by (W.Weight.weight weight.now) (filter (P.Test.meets test.now) (slice_index_or (lists self.old) k []))) }
        ensures left { lists self.new ≡ changed (without_all (P.Test.meets test.now)) (lists self.old) k }
        ensures places { places_of self.new ≡ places_of self.old }
    {
        let mut sum: u64 = 0;
        let mut prev = 0;
        let mut here = self.ends[k].head;
        // no Walk: the table is written on the way
        while here != 0 {
            let slot = self.slot(here);
            if test.meets(&slot.item) {
                sum = sum.saturating_add(u64::from(weight.weight(&slot.item)));
                self.unlink(k, Spot { prev, here });
            } else {
                prev = here;
            }
            here = slot.next;
        }
        sum
    }

    /// Puts `x` in the place of the first item of chain `k` that meets the test, and gives that item; None, and nothing changed, if there is none.
    pub fn replace_first<P: Test<T>>(&mut self, k: usize, test: &P, x: T) -> Option<T>
        requires { k < N }
        ensures first { result ≡ oldest (filter (P.Test.meets test.now) (slice_index_or (lists self.old) k [])) }
        ensures replaced { lists self.new ≡ changed (replaced_first (P.Test.meets test.now) x) (lists self.old) k }
        ensures became { Became (P.Test.meets test.now) (x ∷ []) (slice_index_or (lists self.old) k []) (slice_index_or (lists self.new) k []) result }
        ensures places { places_of self.new ≡ places_of self.old }
    {
        let spot = self.find(k, test)?;
        let item = self.slot(spot.here).item;
        set_item(self.table, spot.here, x);
        Some(item)
    }

    /// Takes the place `spot.here` off chain `k`; it is free then.
    fn unlink(&mut self, k: usize, spot: Spot)
        requires chain { k < N }
        requires some { 0 < spot.here }
        requires walked { (xs : List T) × Walked (parts self.old) k spot.prev spot.here xs }
        ensures unlinked { (xs : List T) → Walked (parts self.old) k spot.prev spot.here xs → Unlinked (parts self.old) (parts self.new) k spot.prev spot.here xs }
        ensures places { places_of self.new ≡ places_of self.old }
    {
        let Spot { prev, here } = spot;
        let next = self.slot(here).next;
        let Chains {
            table,
            ends,
            free,
            room,
        } = self;
        ends[k] = ends[k].without(prev, next);
        follow(table, prev, next);
        set_next(table, here, *free);
        *free = here;
        *room += 1;
    }
}
