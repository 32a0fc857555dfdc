//! A buy and a sell that cross.

use terms::{Entry, Series};

/// A series with a buy and a sell of it that cross.
#[derive(Clone, Copy, Debug, PartialEq, Eq)]
pub struct Crossing {
    pub series: Series,
    pub buy: Entry,
    pub sell: Entry,
}
