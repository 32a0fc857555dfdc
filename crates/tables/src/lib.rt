//! The two tables that a market lies in, entries and slips, and what every market does with them.

#![tactic(auto)]

mod cross;
mod held;
mod levels;
mod picks;
mod state;
mod strikes;

pub use cross::Crossing;
pub use held::{ENTRY_SLOTS, SLIP_SLOTS, long_enough};
pub use state::Tables;
