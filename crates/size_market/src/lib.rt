//! A market by size: the younger of the best buy and the best sell trades, in a round, with all entries at the older's price, each by its part of their contracts.

#![tactic(auto)]

mod by_size;
mod laws;
mod round;
mod state;
mod strikes;

pub use laws::rounds_stand;
pub use state::SizeMarket;
