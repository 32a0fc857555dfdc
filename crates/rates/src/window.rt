//! One window: a limit, an interval, and what it has counted since it was cleared.

ghost use Rattle.std.specs.Prelude.{◌≤◌};

/// An event that counts: when it came, and how much.
#[derive(Clone, Copy, Debug, Default, PartialEq, Eq)]
pub struct Mark {
    pub(crate) time: u64,
    pub(crate) amount: u64,
}

/// The first `used` marks are kept, the oldest first: an array and a count, since an `ArrayVec` can't be copied and takes longer where a
/// window holds marks. A limit of 0 is none, as it is sent and as the laws have it. So is the flag the laws' own: with an enum in place of it
/// the marks would have to be matched on to be counted, and made anew to be cleared.
#[derive(Clone, Copy)]
pub struct Window {
    pub(crate) limit: u64,
    pub(crate) interval: u64,
    pub(crate) tripped: bool,
    pub(crate) used: u8,
    pub(crate) marks: [Mark; 31],
    ghost ok: { used ≤ 31 },
}
