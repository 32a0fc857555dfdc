//! A market by price, then time: the best buy and the best sell trade the smaller of their contracts, at the older's price.

#![tactic(auto)]

mod by_time;

pub use by_time::TimeMarket;
