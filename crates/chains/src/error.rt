//! Why an item cannot be appended.

ghost use Rattle.std.specs.Prelude.{Some};
ghost use Rattle.chains.specs.Lists.{full_text};

use std::error::Error;
use std::fmt;

/// No place of the table is left.
#[derive(Clone, Copy, Debug, PartialEq, Eq)]
pub struct Full;

impl fmt::Display for Full {
    ghost output = { λ _. Some full_text };

    fn fmt<W: fmt::Write>(&self, f: &mut fmt::Formatter<W>) -> fmt::Result {
        write!(f, "no place is left")
    }
}

impl Error for Full {}
