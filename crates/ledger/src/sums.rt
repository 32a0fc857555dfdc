//! Contracts accepted, receipted and cancelled, and how they add up.

ghost use Rattle.std.specs.Prelude.{◌≡◌, ◌-◌};
ghost use Rattle.ledger.specs.Sums.{plus, held};

#[derive(Clone, Copy, Debug, Default, PartialEq, Eq)]
pub struct Sums {
    pub accepted: u64,
    pub receipted: u64,
    pub cancelled: u64,
}

impl Sums {
    /// Both together. What does not fit 64 bits stays at the largest number.
    pub(crate) fn saturating_add(self, other: Sums) -> Sums
        ensures { result ≡ held (plus self other) }
    {
        Sums {
            accepted: self.accepted.saturating_add(other.accepted),
            receipted: self.receipted.saturating_add(other.receipted),
            cancelled: self.cancelled.saturating_add(other.cancelled),
        }
    }

    /// Contracts that were accepted and have neither been receipted nor cancelled: they rest, or wait on slips.
    pub fn in_venue(self) -> u64
        ensures { result ≡ self.accepted - self.receipted - self.cancelled }
    {
        self.accepted
            .saturating_sub(self.receipted)
            .saturating_sub(self.cancelled)
    }
}
