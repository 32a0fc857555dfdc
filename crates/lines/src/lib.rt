//! The lines of a day script: calls as they are read, answers and faults as they are printed.

#![tactic(auto)]

mod answers;
mod calls;
mod echo;
mod faults;
mod names;
mod verbs;

pub use answers::Answer;
pub use calls::{read_call, read_line};
pub use echo::{Answered, Echo};
pub use faults::{CallFault, FieldFault, LineFault};
pub use verbs::Verb;
