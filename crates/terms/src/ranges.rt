//! The venue's numbers and their ranges, and how a plain number becomes one of them.

ghost use Rattle.std.specs.Prelude.{◌≡◌, ◌+◌, ◌-◌, ◌≤◌};
ghost use Rattle.terms.specs.Ranges.{bounded, optional, ReadAs, or_zero};

use crate::bounded::Bounded;
use crate::refusal::Refusal;

/// A firm.
pub type Acronym = Bounded<1, 8>;

/// A connection of a firm to the venue.
pub type Login = Bounded<1, 24>;

/// A series: one option, by type, strike and expiry.
pub type Series = Bounded<1, 16>;

/// The number that a login gives an entry of its own.
pub type OrderNumber = Bounded<1, 4_294_967_295>;

/// Cents.
pub type Price = Bounded<1, 1_000_000>;

pub type Contracts = Bounded<1, 65_535>;

/// Milliseconds.
pub type Time = Bounded<0, 4_294_967_295>;

/// How much a scope may do; 0 is no limit.
pub type Limit = Bounded<0, 1_000_000>;

/// How long an event counts, in milliseconds: a day at most.
pub type Interval = Bounded<1, 86_400_000>;

/// The number that a check turns an entry down with.
pub type TurnDown = Bounded<41, 59>;

impl<const LOW: u32, const HIGH: u32> TryFrom<u64> for Bounded<LOW, HIGH> {
    type Error = Refusal;

    ghost try_from_gives = { ReadAs (λ b. b.value) LOW HIGH (bounded LOW HIGH) };

    /// The number n, where it lies in the range.
    fn try_from(n: u64) -> Result<Bounded<LOW, HIGH>, Refusal> {
        if n < LOW as u64 || n > HIGH as u64 {
            return Err(Refusal::Field);
        }
        Ok(Bounded { value: n as u32 })
    }
}

impl<const LOW: u32, const HIGH: u32> From<Bounded<LOW, HIGH>> for u64 {
    ghost from_gives = { λ b n. n ≡ b.value };

    fn from(b: Bounded<LOW, HIGH>) -> u64 {
        u64::from(b.value)
    }
}

impl<const LOW: u32, const HIGH: u32> Bounded<LOW, HIGH> {
    pub fn number(self) -> u32
        ensures { result ≡ self.entry.value }
    {
        self.value
    }

    /// Its place among the numbers of its range, from 0.
    pub fn index(self) -> usize
        ensures place { result + LOW ≡ self.entry.value }
        ensures bound { result ≤ HIGH - LOW }
    {
        (self.number() - LOW) as usize
    }
}

/// A price, where 0 stands for none. A function, since neither `Option` nor `u64` is of this crate, whose own `TryFrom` it could be.
pub fn optional_price(n: u64) -> Result<Option<Price>, Refusal>
    ensures { ReadAs or_zero 0 1000000 optional n result }
{
    if n == 0 {
        return Ok(None);
    }
    let price = Price::try_from(n)?;
    Ok(Some(price))
}
