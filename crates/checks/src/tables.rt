//! Tables numbered from 1, as acronyms, logins and series are: a number that has no place reads as absent, and alters nothing.

ghost use Rattle.std.specs.Prelude.{◌≡◌};
ghost use Rattle.terms.specs.Tables.{at, put};
ghost use Rattle.checks.specs.Places.{Placed};

/// The place, from 0, of the n-th in a table of `size`.
pub fn place(n: u64, size: usize) -> Option<usize>
    ensures { Placed n size result }
{
    if n == 0 || n > size as u64 {
        return None;
    }
    Some((n - 1) as usize)
}

/// The n-th, or `absent` where there is none.
pub fn read_at<T: Copy>(table: &[T], n: u64, absent: T) -> T
    ensures { result ≡ at absent table.now n }
{
    match place(n, table.len()) {
        Some(i) => table[i],
        None => absent,
    }
}

/// Writes the n-th.
pub fn put_at<T: Copy>(table: &mut [T], n: u64, value: T)
    ensures { table.new ≡ put table.old n value }
{
    if let Some(i) = place(n, table.len()) {
        table[i] = value;
    }
}
