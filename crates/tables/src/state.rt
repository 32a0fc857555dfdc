//! The two lent tables of a market, with what is always so of them.

ghost use Rattle.std.specs.Prelude.{◌≤◌};
ghost use Rattle.chains.specs.Lists.{places};
ghost use Rattle.tables.specs.Kept.{seen_entries, Few, Apart};

use chains::Chains;
use terms::{Entry, Slip};

/// Entries of 16 series, and slips of 24 logins. A login rests 16 entries at most and no number twice, and there are places for 16 entries of each.
#[derive(Drop)]
pub struct Tables<'a> {
    pub(crate) entries: Chains<'a, Entry, 16>,
    pub(crate) slips: Chains<'a, Slip, 24>,
    ghost few: { Few (seen_entries entries) },
    ghost apart: { Apart (seen_entries entries) },
    ghost room: { 384 ≤ places entries },
}
