//! Walks along one chain, which read it and change nothing.

ghost use Rattle.std.specs.Prelude.{◌≡◌, IfSome, IfNone};
ghost use Rattle.chains.specs.Slots.{nexts, items};
ghost use Rattle.chains.specs.Chain.{Chained, Sought};
ghost use Rattle.chains.specs.Asks.{NoneOf};

use crate::asks::Test;
use crate::slots::Slot;

/// The place of an item, and the place before it, which is 0 for the first of a chain.
#[derive(Clone, Copy)]
pub(crate) struct Spot {
    pub(crate) prev: usize,
    pub(crate) here: usize,
}

/// A walk along a chain. It yields the items from the place `next` on, and `spot` is where the last that it yielded lies.
#[derive(Drop)]
pub(crate) struct Walk<'a, T> {
    table: &'a [Slot<T>],
    spot: Spot,
    next: usize,
    ghost chained: { ∥ Chained (nexts table.now) next ∥₁ },
}

impl<'a, T> Iterator for Walk<'a, T> {
    type Item = &'a T;

    ghost use Rattle.std.specs.Iterator.{item_count};
    ghost use Rattle.chains.specs.Walks.{left, Strides};

    ghost next_gives = { Strides };

    ghost remaining = { item_count left };

    fn next(&mut self) -> Option<&'a T> {
        let here = self.next;
        if here == 0 {
            return None;
        }
        let slot = &self.table[here];
        self.spot = Spot {
            prev: self.spot.here,
            here,
        };
        self.next = slot.next;
        Some(&slot.item)
    }
}

impl<'a, T> Walk<'a, T> {
    ghost use Rattle.chains.specs.Walks.{left, Starts};

    /// The walk from place `head` on.
    pub(crate) fn new(table: &'a [Slot<T>], head: usize) -> Walk<'a, T>
        requires { Chained (nexts table.now) head }
        ensures { Starts result table.now head }
    {
        Walk {
            table,
            spot: Spot { prev: 0, here: 0 },
            next: head,
        }
    }

    /// Where the first item that meets the test lies.
    pub(crate) fn seek<P: Test<T>>(self, test: &P) -> Option<Spot>
        requires { self.spot.here ≡ 0 }
        ensures none { IfNone result (NoneOf (P.Test.meets test.now) (left self.entry)) }
        ensures found { IfSome result (λ s. Sought (P.Test.meets test.now) (nexts self.entry.table.now) (items self.entry.table.now) self.entry.next s.prev s.here) }
    {
        let mut walk = self;
        walk.find(|item| test.meets(*item))?;
        Some(walk.spot)
    }
}
