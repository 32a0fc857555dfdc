//! The numbers of a line, which are as many as are asked for.

ghost use Rattle.std.specs.Prelude.{◌≡◌, [], OnOk};
ghost use Rattle.script.specs.Words.{remaining};
ghost use Rattle.script.specs.Numbers.{numbers_in, Numbered};

use crate::decimal::number;
use crate::reader::Reader;

/// What stands where a number or the end was expected: the end, another word, or one word more. Fields count from 0.
#[derive(Clone, Copy, Debug, PartialEq, Eq)]
pub enum Fault {
    Missing { field: usize },
    NotNumber { field: usize },
    Extra { field: usize },
}

/// N numbers, and then the end of the line.
pub fn numbers<const N: usize>(reader: &mut Reader) -> Result<[u64; N], Fault>
    ensures value { result ≡ numbers_in N 0 (remaining reader.old) }
    ensures numbered { Numbered N (remaining reader.old) result }
    ensures ended { OnOk result (remaining reader.new ≡ []) }
{
    let mut numbers = [0; N];
    for (field, place) in numbers.iter_mut().enumerate() {
        let word = reader.next().ok_or(Fault::Missing { field })?;
        *place = number(word).ok_or(Fault::NotNumber { field })?;
    }
    match reader.next() {
        None => Ok(numbers),
        Some(_) => Err(Fault::Extra { field: N }),
    }
}
