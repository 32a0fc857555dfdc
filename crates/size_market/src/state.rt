//! The market's tables and its round, with what is always so of them.

ghost use Rattle.tables.specs.Held.{resting_of};
ghost use Rattle.size_market.specs.Going.{Sound};

use crate::round::Round;
use tables::Tables;

/// A market by size, in two lent tables, and the round that is open.
#[derive(Drop)]
pub struct SizeMarket<'a> {
    pub(crate) tables: Tables<'a>,
    pub(crate) round: Option<Round>,
    ghost sound: { Sound (resting_of tables) round },
}
