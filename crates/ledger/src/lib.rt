//! What the events of a day come to for each firm: contracts accepted, receipted, cancelled and still in the venue.

#![tactic(auto)]

mod accounts;
mod postings;
mod report;
mod sums;

pub use accounts::Ledger;
pub use report::{FirmLine, Listing, Logins, Standing};
pub use sums::Sums;
