//! Which entries are meant, and what is added up over them.

ghost use Rattle.std.specs.Prelude.{◌≡◌, ◌||◌, ◌==◌};
ghost use Rattle.terms.specs.Kinds.{reach_number, kind_number, side_number};
ghost use Rattle.market.specs.Book.{is_for, in_reach, reaches as reaches_kind};
ghost use Rattle.market.specs.Seen.{seen};
ghost use Rattle.tables.specs.Cross.{on_side, at_price, names, beats};

use chains::{Order, Test, Weight};
use terms::{Entry, Kind, Login, OrderNumber, Price, Reach, Side};

/// A login's entry by number.
#[derive(Clone, Copy)]
pub(crate) struct IsFor {
    pub(crate) login: Login,
    pub(crate) number: OrderNumber,
}

impl Test<Entry> for IsFor {
    ghost meets = { λ t e. is_for t.login.value t.number.value (seen e) };

    fn meets(&self, e: &Entry) -> bool {
        e.login == self.login && e.number == self.number
    }
}

/// All entries of a login.
#[derive(Clone, Copy)]
pub(crate) struct OfLogin {
    pub(crate) login: Login,
}

impl Test<Entry> for OfLogin {
    ghost meets = { λ t e. ((seen e).login == t.login.value) };

    fn meets(&self, e: &Entry) -> bool {
        e.login == self.login
    }
}

/// The entries of a login within a reach.
#[derive(Clone, Copy)]
pub(crate) struct InReach {
    pub(crate) login: Login,
    pub(crate) reach: Reach,
}

impl Test<Entry> for InReach {
    ghost meets = { λ t e. in_reach t.login.value (reach_number t.reach) (seen e) };

    fn meets(&self, e: &Entry) -> bool {
        e.login == self.login && reaches(self.reach, e.kind)
    }
}

/// Whether a reach takes a kind.
fn reaches(reach: Reach, kind: Kind) -> bool
    ensures { result ≡ reaches_kind (reach_number reach) (kind_number kind) }
{
    matches!(
        (reach, kind),
        (Reach::Both, _) | (Reach::Quotes, Kind::Quote) | (Reach::Orders, Kind::Order)
    )
}

/// The contracts that an entry has left.
#[derive(Drop)]
pub(crate) struct Left;

impl Weight<Entry> for Left {
    ghost weight = { λ _ e. e.contracts.value };

    fn weight(&self, e: &Entry) -> u32 {
        e.contracts.number()
    }
}

/// All entries on a side.
#[derive(Clone, Copy)]
pub(crate) struct OnSide {
    pub(crate) side: Side,
}

impl Test<Entry> for OnSide {
    ghost meets = { λ t e. on_side (side_number t.side) (seen e) };

    fn meets(&self, e: &Entry) -> bool {
        e.side == self.side
    }
}

/// All entries on a side at a price.
#[derive(Clone, Copy)]
pub(crate) struct AtPrice {
    pub(crate) side: Side,
    pub(crate) price: Price,
}

impl Test<Entry> for AtPrice {
    ghost meets = { λ t e. at_price (side_number t.side) t.price.value (seen e) };

    fn meets(&self, e: &Entry) -> bool {
        e.side == self.side && e.price == self.price
    }
}

/// The entry of another's login, number and side.
#[derive(Clone, Copy)]
pub(crate) struct Names {
    pub(crate) entry: Entry,
}

impl Test<Entry> for Names {
    ghost meets = { λ t e. names (seen t.entry) (seen e) };

    fn meets(&self, e: &Entry) -> bool {
        e.login == self.entry.login && e.number == self.entry.number && e.side == self.entry.side
    }
}

/// Either of two entries, by login and number.
#[derive(Clone, Copy)]
pub(crate) struct Either {
    pub(crate) one: IsFor,
    pub(crate) other: IsFor,
}

impl Test<Entry> for Either {
    ghost meets = { λ t e. is_for t.one.login.value t.one.number.value (seen e) || is_for t.other.login.value t.other.number.value (seen e) };

    fn meets(&self, e: &Entry) -> bool {
        self.one.meets(e) || self.other.meets(e)
    }
}

/// The better price for the other side first: of two buys the higher, of two sells the lower.
#[derive(Clone, Copy)]
pub(crate) struct Best {
    pub(crate) side: Side,
}

impl Order<Entry> for Best {
    ghost better = { λ o a b. beats o.side (seen a) (seen b) };

    fn better(&self, a: &Entry, b: &Entry) -> bool {
        match self.side {
            Side::Buy => b.price < a.price,
            Side::Sell => a.price < b.price,
        }
    }
}
