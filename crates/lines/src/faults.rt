//! What is wrong with a line that is no call.

ghost use Rattle.std.specs.Prelude.{◌≡◌};
ghost use Rattle.lines.specs.declared.faults.CallFault.TheVariants.{Field};

use crate::verbs::Verb;

/// What is wrong with the fields of a call.
#[derive(Clone, Copy, Debug, PartialEq, Eq)]
pub enum FieldFault {
    /// The word of a scope, `login` or `acronym`, was expected first.
    Scope { verb: Verb },
    /// A number or the end of the line was expected.
    Number { verb: Verb, fault: script::Fault },
}

/// Why a line is no call.
#[derive(Clone, Copy, Debug, PartialEq, Eq)]
pub enum CallFault {
    Unknown,
    Field { fault: FieldFault },
}

// By hand, since a clause names the fault that it makes.
impl From<FieldFault> for CallFault {
    ghost from_gives = { λ x y. y ≡ Field x };

    fn from(fault: FieldFault) -> CallFault {
        CallFault::Field { fault }
    }
}

/// The line, counted from 1, that is no call.
#[derive(Clone, Copy, Debug, PartialEq, Eq)]
pub struct LineFault {
    pub line: u64,
    pub fault: CallFault,
}
