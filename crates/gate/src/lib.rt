//! The gate: thirteen calls over any market and any checks.

#![tactic(auto)]

mod cuts;
mod desk;
mod entries;
mod holds;
mod kills;
mod logins;
mod plays;
mod rows;
mod settings;
mod slips;
mod strikes;
mod sweeps;
mod tokens;
mod trips;

pub use desk::Gate;
pub use rows::{Row, Session, Standing};
pub use tokens::{Returned, TakenSlip};
