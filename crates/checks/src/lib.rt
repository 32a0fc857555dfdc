//! What a check is, piles of checks, and the rules by which an entry is turned down on its way in.

#![tactic(auto)]

mod checking;
mod desk;
mod piling;
mod pricing;
mod puts_calls;
mod sizing;
mod tables;
mod turning;
mod valuing;

pub use checking::{Check, NO_CAUSE, acronym_of};
pub use desk::{Judgement, judge_price};
pub use piling::Pile;
pub use pricing::{
    Basis, Exemption, basis_of, distance, exemption_of, limit_price, reference, usable,
};
pub use puts_calls::put_and_call;
pub use sizing::Size;
pub use tables::{place, put_at, read_at};
pub use valuing::{ByValues, LimitPrice, PutAndCall, Rule};
