//! The same chains as a plain Vec: every item with its chain, in the order of appending.
//! It promises nothing: what it answers is compared with what the chains answer.

ghost use Rattle.std.specs.Prelude.{◌<◌, length, IfSome};

use crate::records::Record;
use std::alloc::{AllocError, Global};
use std::mem;

#[derive(Clone, Copy)]
pub struct Entry<T> {
    pub chain: usize,
    pub item: T,
}

/// The items of a chain, or those of one kind.
#[derive(Clone, Copy)]
pub struct Choice {
    chain: usize,
    kind: Option<u8>,
}

impl Choice {
    pub fn all(chain: usize) -> Choice {
        Choice { chain, kind: None }
    }

    pub fn of_kind(chain: usize, kind: u8) -> Choice {
        Choice {
            chain,
            kind: Some(kind),
        }
    }

    pub fn has<T: Record>(&self, entry: &Entry<T>) -> bool {
        entry.chain == self.chain && self.kind.is_none_or(|kind| entry.item.kind() == kind)
    }
}

#[derive(Drop)]
pub struct Mirror<T> {
    pub entries: Vec<Entry<T>>,
}

// questions
impl<T: Record> Mirror<T> {
    pub fn new(heap: Global) -> Mirror<T> {
        Mirror {
            entries: Vec::new(heap),
        }
    }

    pub fn len(&self) -> usize {
        self.entries.len()
    }

    pub fn first(&self, choice: Choice) -> Option<T> {
        self.entries
            .iter()
            .find(|entry| choice.has(*entry))
            .map(|entry| entry.item)
    }

    pub fn count(&self, choice: Choice) -> usize {
        self.entries
            .iter()
            .filter(|entry| choice.has(*entry))
            .count()
    }

    pub fn sum(&self, choice: Choice) -> u64 {
        self.entries.iter().filter(|entry| choice.has(*entry)).fold(
            0u64,
            |sum, entry| sum.wrapping_add(u64::from(entry.item.size())),
        )
    }

    /// The first of the largest.
    pub fn largest(&self, choice: Choice) -> Option<T> {
        self.entries
            .iter()
            .filter(|entry| choice.has(*entry))
            .map(|entry| entry.item)
            .reduce(|best, next| if next.size() > best.size() {
                next
            } else {
                best
            })
    }
}

// changes
impl<T: Record> Mirror<T> {
    pub fn push_back(&mut self, chain: usize, item: T) -> Result<(), AllocError> {
        self.entries.push(Entry { chain, item })?;
        Ok(())
    }

    /// Where the first of the choice stands.
    fn position(&self, choice: Choice) -> Option<usize>
        ensures { IfSome result (λ i. i < length self.now.entries.items) }
    {
        self.entries.iter().position(|entry| choice.has(entry))
    }

    pub fn remove_first(&mut self, choice: Choice) -> Option<T> {
        let at = self.position(choice)?;
        Some(self.entries.remove(at).item)
    }

    pub fn remove_all(&mut self, choice: Choice) {
        self.entries.retain(|entry| !choice.has(entry));
    }

    pub fn replace_first(&mut self, choice: Choice, item: T) -> Option<T> {
        let at = self.position(choice)?;
        Some(mem::replace(&mut self.entries[at].item, item))
    }
}
