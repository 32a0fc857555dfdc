//! A number that is known to lie in its range.

ghost use Rattle.std.specs.Prelude.{◌≤◌};

/// A number from LOW to HIGH. The range is part of the type, so what holds one need not test it again.
#[derive(Clone, Copy, Debug, PartialEq, Eq, PartialOrd, Ord)]
pub struct Bounded<const LOW: u32, const HIGH: u32> {
    pub(crate) value: u32,
    ghost low: { LOW ≤ value },
    ghost high: { value ≤ HIGH },
}
