//! Random operations on chains and on their mirror, and a count of the answers that differ.

ghost use Rattle.std.specs.Prelude.{◌≡◌, ◌+◌, ◌-◌, ◌<◌, length, IfOk};
ghost use Rattle.chains.specs.Lists.{lists, total, places as places_of};

use crate::mirror::{Choice, Mirror};
use crate::operation::{COUNT, Operation};
use crate::random::Random;
use crate::records::{Larger, OfKind, Record, Size};
use chains::{Chains, Slot};
use std::alloc::{AllocError, Global};

/// How often each operation was tried, how many items found no room, how many answers differ, and how many items there were at the end
/// and how many more were then taken.
#[derive(Drop)]
pub struct Tally {
    pub counts: [u32; COUNT],
    pub refused: u32,
    pub differ: u32,
    pub held: usize,
    pub filled: usize,
}

/// Chains, and beside them a mirror that the same is done to.
#[derive(Drop)]
struct Pair<'a, T> {
    chains: Chains<'a, T, 3>,
    mirror: Mirror<T>,
    places: usize,
}

impl<'a, T: Record> Pair<'a, T> {
    /// Whether the chains and the mirror answer the operation alike; `item` is what is appended or put in, and its kind is the kind looked for.
    fn answer_alike(&mut self, operation: Operation, k: usize, item: T) -> Result<bool, AllocError>
        requires { k < 3 }
        ensures places { places_of self.new.chains ≡ places_of self.old.chains }
    {
        let all = Choice::all(k);
        let chosen = Choice::of_kind(k, item.kind());
        let test = OfKind(item.kind());
        let Pair {
            chains,
            mirror,
            places,
        } = self;
        Ok(match operation {
            Operation::Front => chains.front(k) == mirror.first(all),
            Operation::First => chains.first(k, &test) == mirror.first(chosen),
            Operation::Count => chains.count(k) == mirror.count(all),
            Operation::CountOf => chains.count_of(k, &test) == mirror.count(chosen),
            Operation::SumOf => chains.sum_of(k, &test, &Size) == mirror.sum(chosen),
            Operation::Best => chains.best(k, &test, &Larger) == mirror.largest(chosen),
            Operation::LenAndRoom => chains.len() == mirror.len()
                && chains.room().wrapping_add(mirror.len()) == *places,
            Operation::PushBack => {
                let fits = mirror.len() < *places;
                if fits {
                    mirror.push_back(k, item)?;
                }
                chains.push_back(k, item).is_ok() == fits
            }
            Operation::PopFront => chains.pop_front(k) == mirror.remove_first(all),
            Operation::RemoveFirst => chains.remove_first(k, &test) == mirror.remove_first(chosen),
            Operation::RemoveAll => {
                let sum = mirror.sum(chosen);
                mirror.remove_all(chosen);
                chains.remove_all(k, &test, &Size) == sum
            }
            Operation::ReplaceFirst => {
                chains.replace_first(k, &test, item) == mirror.replace_first(chosen, item)
            }
        })
    }

    /// Whether chain `k` is the mirror's list: each item in turn is taken off and appended again.
    fn listed_alike(&mut self, k: usize) -> bool
        requires { k < 3 }
        ensures places { places_of self.new.chains ≡ places_of self.old.chains }
    {
        let all = Choice::all(k);
        let Pair { chains, mirror, .. } = self;
        let mut alike = chains.count(k) == mirror.count(all);
        // A loop, since each turn changes the chains.
        for entry in &mirror.entries {
            if all.has(entry) {
                alike = chains.pop_front(k) == Some(entry.item) && alike;
                alike = chains.push_back(k, entry.item).is_ok() && alike;
            }
        }
        alike
    }

    /// One random operation on one chain, and then a comparison of the lists of that chain.
    fn turn(
        &mut self,
        random: &mut Random,
        tally: &mut Tally,
        serial: u32,
    ) -> Result<(), AllocError>
        ensures places { places_of self.new.chains ≡ places_of self.old.chains }
    {
        let k = random.below(3) as usize;
        // appending comes up more often, so that the chains fill
        let operation = Operation::ALL
            .get(random.below(15) as usize)
            .copied()
            .unwrap_or(Operation::PushBack);
        let item = T::new(serial, random.below(3) as u8, random.below(9));
        let full = self.mirror.len() == self.places;
        let alike = self.answer_alike(operation, k, item)?;
        let listed = self.listed_alike(k);
        let count = &mut tally.counts[operation as usize];
        *count = count.wrapping_add(1);
        if operation == Operation::PushBack && full {
            tally.refused = tally.refused.wrapping_add(1);
        }
        if !alike || !listed {
            tally.differ = tally.differ.wrapping_add(1);
        }
        Ok(())
    }

    /// Appends the item to chain `k` as often as there is room, and says how often: whatever was appended and removed before, every place is used.
    fn fill(&mut self, k: usize, item: T) -> usize
        requires { k < 3 }
        ensures taken { result + total (lists self.old.chains) ≡ places_of self.old.chains }
        ensures full { total (lists self.new.chains) ≡ places_of self.old.chains }
    {
        let room = self.chains.room();
        // A loop, since each turn changes the chains.
        for n in 0..room {
            let Ok(()) = self.chains.push_back(k, item) else {
                return n;
            };
        }
        room
    }
}

/// Makes chains over the table, tries as many random operations, and then fills them: one item for each place but place 0.
pub fn drive<T: Record>(
    heap: Global,
    table: &mut [Slot<T>],
    seed: u32,
    turns: u32,
) -> Result<Tally, AllocError>
    ensures { IfOk result (λ t. t.held + t.filled ≡ length table.old - 1) }
{
    let places = table.len().saturating_sub(1);
    let mut pair = Pair {
        chains: Chains::new(table),
        mirror: Mirror::new(heap),
        places,
    };
    let mut random = Random::new(seed);
    let mut tally = Tally {
        counts: [0; COUNT],
        refused: 0,
        differ: 0,
        held: 0,
        filled: 0,
    };
    for serial in 0..turns {
        pair.turn(&mut random, &mut tally, serial)?;
    }
    tally.held = pair.chains.len();
    tally.filled = pair.fill(0, T::new(turns, 0, 0));
    Ok(tally)
}
