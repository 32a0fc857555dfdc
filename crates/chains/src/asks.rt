//! What is asked of the items of a chain: tests, numbers and orders, each with its meaning as a function.
//! They are traits and no closures: contracts filter, sum and rank lists by these functions, and a closure's `post` is only a relation.

ghost use Rattle.std.specs.Prelude.{◌≡◌, ℕ, Bool, true};

/// A test that an item meets or not.
pub trait Test<T> {
    ghost meets: { Self → T → Bool };

    fn meets(&self, item: &T) -> bool
        ensures { result ≡ meets self.now item.now };
}

/// A number of each item.
pub trait Weight<T> {
    ghost weight: { Self → T → ℕ };

    fn weight(&self, item: &T) -> u32
        ensures { result ≡ weight self.now item.now };
}

/// An order of items, of which the better comes first.
pub trait Order<T> {
    ghost better: { Self → T → T → Bool };

    fn better(&self, item: &T, than: &T) -> bool
        ensures { result ≡ better self.now item.now than.now };
}

/// The test that every item meets.
#[derive(Drop)]
pub struct Any;

impl<T> Test<T> for Any {
    ghost meets = { λ _ _. true };

    fn meets(&self, _item: &T) -> bool {
        true
    }
}
