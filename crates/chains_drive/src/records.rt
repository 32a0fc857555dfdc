//! Two plain records of different size, and a test, a number and an order of them.

ghost use Rattle.std.specs.Prelude.{◌≡◌, ℕ, ◌==◌, nat_lt};

use chains::{Order, Test, Weight};

/// A record of some kind and size.
pub trait Record: Copy + PartialEq {
    ghost kind: { Self → ℕ };

    ghost size: { Self → ℕ };

    fn new(serial: u32, kind: u8, size: u32) -> Self;

    fn kind(&self) -> u8
        ensures { result ≡ kind self.now };

    fn size(&self) -> u32
        ensures { result ≡ size self.now };
}

#[derive(Clone, Copy, PartialEq, Eq)]
pub struct Small {
    pub kind: u8,
    pub size: u32,
}

impl Record for Small {
    ghost kind = { λ r. r.kind };

    ghost size = { λ r. r.size };

    fn new(_serial: u32, kind: u8, size: u32) -> Small {
        Small { kind, size }
    }

    fn kind(&self) -> u8 {
        self.kind
    }

    fn size(&self) -> u32 {
        self.size
    }
}

#[derive(Clone, Copy, PartialEq, Eq)]
pub struct Large {
    pub serial: u64,
    pub size: u32,
    pub kind: u8,
}

impl Record for Large {
    ghost kind = { λ r. r.kind };

    ghost size = { λ r. r.size };

    fn new(serial: u32, kind: u8, size: u32) -> Large {
        Large {
            serial: u64::from(serial),
            size,
            kind,
        }
    }

    fn kind(&self) -> u8 {
        self.kind
    }

    fn size(&self) -> u32 {
        self.size
    }
}

/// The test that a record is of this kind.
#[derive(Drop)]
pub struct OfKind(pub u8);

impl<T: Record> Test<T> for OfKind {
    ghost meets = { λ t r. (T.Record.kind r == t.0) };

    fn meets(&self, item: &T) -> bool {
        item.kind() == self.0
    }
}

/// The size as the number of a record.
#[derive(Drop)]
pub struct Size;

impl<T: Record> Weight<T> for Size {
    ghost weight = { λ _ r. T.Record.size r };

    fn weight(&self, item: &T) -> u32 {
        item.size()
    }
}

/// The larger record is the better one.
#[derive(Drop)]
pub struct Larger;

impl<T: Record> Order<T> for Larger {
    ghost better = { λ _ r s. nat_lt (T.Record.size s) (T.Record.size r) };

    fn better(&self, item: &T, than: &T) -> bool {
        than.size() < item.size()
    }
}
