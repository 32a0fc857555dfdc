//! The rate windows: how much a login and its firm did of late, and whether it was too much.

#![tactic(auto)]

mod counting;
mod firms;
mod routing;
mod scopes;
mod telling;
mod window;
mod windows;

pub use counting::windows_stand;
pub use windows::Rates;
