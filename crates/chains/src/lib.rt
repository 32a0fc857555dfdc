//! N chains of plain records in one table that the caller lends.
//!
//! A table is a slice of slots, each with an item and the index of the next place of its chain. Place 0 holds
//! nothing: index 0 ends every chain. The places in no chain are on a free chain, and are used again.
//! Nothing is allocated, appending takes constant time, and a walk reads each place of one chain once.

#![tactic(auto)]

mod asks;
mod error;
mod slots;
mod table;
mod walks;

pub use asks::{Any, Order, Test, Weight};
pub use error::Full;
pub use slots::Slot;
pub use table::Chains;
