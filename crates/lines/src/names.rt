//! What a fault says: the names of calls and of their fields, and the messages.

ghost use Rattle.std.specs.Prelude.{◌≡◌, Some};
ghost use Rattle.lines.specs.Verbs.{word_of};
ghost use Rattle.lines.specs.Names.{field_names, name_at, name_before, texts, field_message, message, line_message};

use crate::faults::{CallFault, FieldFault, LineFault};
use crate::verbs::Verb;
use script::Fault;
use std::fmt;

/// The names of a call's numbers, in their order.
fn field_names(verb: Verb) -> &'static [&'static str]
    ensures { texts result.now ≡ field_names verb }
{
    match verb {
        Verb::Tick => &["TIME"],
        Verb::Values => &[
            "SERIES",
            "TYPE",
            "STRIKE",
            "CLASS",
            "PHASE",
            "FLAG",
            "NBB",
            "NBO",
            "BID",
            "OFFER",
            "CLOSE",
            "UNDERLYING",
        ],
        Verb::Open => &["LOGIN", "ACRONYM", "ROLE", "REACH"],
        Verb::Retire | Verb::Take => &["LOGIN"],
        Verb::Limit => &["N", "KIND", "LIMIT", "INTERVAL"],
        Verb::Enter => &[
            "LOGIN",
            "NUMBER",
            "SERIES",
            "SIDE",
            "KIND",
            "MARKS",
            "PRICE",
            "CONTRACTS",
        ],
        Verb::Cancel => &["LOGIN", "NUMBER"],
        Verb::Strike => &[],
        Verb::Receipt | Verb::PutBack => &["LOGIN", "NUMBER", "SIDE", "CONTRACTS", "PRICE"],
        Verb::Kill => &["N", "REACH", "BLOCK"],
        Verb::Release => &["N"],
    }
}

/// The name of a call's number; they are counted from 0.
fn field_name(verb: Verb, field: usize) -> &'static str
    ensures { result.now ≡ name_at (field_names verb) field }
{
    field_names(verb).get(field).copied().unwrap_or("a field")
}

/// What stands before a call's number: the number before it, or the call's word.
fn name_before(verb: Verb, field: usize) -> &'static str
    ensures { result.now ≡ name_before verb field }
{
    if field == 0 {
        return verb.word();
    }
    field_name(verb, field - 1)
}

impl fmt::Display for FieldFault {
    ghost output = { λ x. Some (field_message x) };

    fn fmt<W: fmt::Write>(&self, f: &mut fmt::Formatter<W>) -> fmt::Result {
        match *self {
            FieldFault::Scope { verb } => {
                write!(f, "expected login or acronym after {}", verb.word())
            }
            FieldFault::Number {
                verb,
                fault: Fault::Missing { field },
            } => write!(f, "expected {}, and the line ends", field_name(verb, field)),
            FieldFault::Number {
                verb,
                fault: Fault::NotNumber { field },
            } => write!(f, "expected {}, a number", field_name(verb, field)),
            FieldFault::Number {
                verb,
                fault: Fault::Extra { field },
            } => write!(
                f,
                "expected the end of the line after {}",
                name_before(verb, field)
            ),
        }
    }
}

impl fmt::Display for CallFault {
    ghost output = { λ x. Some (message x) };

    fn fmt<W: fmt::Write>(&self, f: &mut fmt::Formatter<W>) -> fmt::Result {
        match *self {
            CallFault::Unknown => write!(
                f,
                "expected a call: tick, values, open, retire, limit, enter, cancel, strike, take, receipt, putback, kill or release"
            ),
            CallFault::Field { fault } => write!(f, "{fault}"),
        }
    }
}

impl fmt::Display for LineFault {
    ghost output = { λ x. Some (line_message x) };

    fn fmt<W: fmt::Write>(&self, f: &mut fmt::Formatter<W>) -> fmt::Result {
        let line = self.line;
        let fault = self.fault;
        write!(f, "line {line}: {fault}")
    }
}
