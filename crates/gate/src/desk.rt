//! What a gate keeps.

ghost use Rattle.std.specs.Prelude.{◌≡◌, length};

use crate::rows::Row;
use checks::Check;
use market::Market;

/// A gate over a market and checks that are lent to it: the clock, which series have values, the logins' rows, and the causes of the firms' holds: plain numbers as they are answered, 0 for none.
#[derive(Drop)]
pub struct Gate<'g, M: Market, C: Check> {
    pub(crate) market: &'g mut M,
    pub(crate) checks: &'g mut C,
    pub(crate) time: u32,
    pub(crate) valued: [bool; 16],
    pub(crate) rows: [Row; 24],
    pub(crate) holds: [u8; 8],
    ghost row_each: { length rows ≡ 24 },
}
