//! The fields of a call: read from plain numbers into their types, or refused where one is out of its range.

#![tactic(auto)]

mod orders;
mod ranges;

pub use orders::{Claim, Named, Opening, Order};
pub use ranges::{Kill, limit_fields, scope_fields, value_fields};
