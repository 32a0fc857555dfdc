//! The words and numbers of one line of a text script.

#![tactic(auto)]

mod decimal;
mod fields;
mod reader;

pub use decimal::number;
pub use fields::{Fault, numbers};
pub use reader::Reader;
