//! One slot of a table: what it holds, and how it is read and written.

ghost use Rattle.std.specs.Prelude.{◌≡◌, ◌-◌, ◌<◌, [], ◌∷◌, length, slice_index, slice_set};
ghost use Rattle.chains.specs.Slots.{nexts, items};
ghost use Rattle.chains.specs.Chain.{Linked, down, at as standing};

/// An item, and the index of the next place of its chain, which is 0 at the end.
#[derive(Clone, Copy)]
pub struct Slot<T> {
    pub next: usize,
    pub item: T,
}

/// What stands at place `i`.
pub(crate) fn peek<T: Copy>(table: &[Slot<T>], i: usize) -> Slot<T>
    requires { i < length table.now }
    ensures next { result.next ≡ slice_index (nexts table.now) i }
    ensures item { standing (items table.now) i ≡ result.item ∷ [] }
{
    table[i]
}

/// Lets place `n` follow place `i`.
pub(crate) fn set_next<T: Copy>(table: &mut [Slot<T>], i: usize, n: usize)
    requires { i < length table.old }
    ensures nexts { nexts table.new ≡ slice_set (nexts table.old) i n }
    ensures items { items table.new ≡ items table.old }
{
    table[i].next = n;
}

/// Lets place `n` follow place `i`, or leaves the table as it is where `i` is 0.
pub(crate) fn follow<T: Copy>(table: &mut [Slot<T>], i: usize, n: usize)
    requires { 0 < i → i < length table.old }
    ensures none { i ≡ 0 → nexts table.new ≡ nexts table.old }
    ensures nexts { 0 < i → nexts table.new ≡ slice_set (nexts table.old) i n }
    ensures items { items table.new ≡ items table.old }
{
    if i != 0 {
        set_next(table, i, n);
    }
}

/// Puts `x` at place `i`.
pub(crate) fn set_item<T: Copy>(table: &mut [Slot<T>], i: usize, x: T)
    requires { i < length table.old }
    ensures nexts { nexts table.new ≡ nexts table.old }
    ensures items { items table.new ≡ slice_set (items table.old) i x }
{
    table[i].item = x;
}

/// Makes one chain of all the places but place 0, and says which is its first.
pub(crate) fn link_all<T: Copy>(table: &mut [Slot<T>]) -> usize
    ensures linked { Linked (nexts table.new) result (down (length table.old - 1)) }
    ensures items { items table.new ≡ items table.old }
{
    let mut first = 0;
    for i in 1..table.len() {
        set_next(table, i, first);
        first = i;
    }
    first
}
