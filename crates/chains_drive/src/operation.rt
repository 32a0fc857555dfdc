//! The operations that are tried.

use std::fmt;

/// How many operations there are.
pub const COUNT: usize = 12;

/// An operation on one chain.
#[derive(Clone, Copy, PartialEq, Eq)]
pub enum Operation {
    Front,
    First,
    Count,
    CountOf,
    SumOf,
    Best,
    LenAndRoom,
    PushBack,
    PopFront,
    RemoveFirst,
    RemoveAll,
    ReplaceFirst,
}

impl Operation {
    /// All of them, each at the place of its number.
    pub const ALL: [Operation; COUNT] = [
        Operation::Front,
        Operation::First,
        Operation::Count,
        Operation::CountOf,
        Operation::SumOf,
        Operation::Best,
        Operation::LenAndRoom,
        Operation::PushBack,
        Operation::PopFront,
        Operation::RemoveFirst,
        Operation::RemoveAll,
        Operation::ReplaceFirst,
    ];
}

impl fmt::Display for Operation {
    fn fmt<W: fmt::Write>(&self, f: &mut fmt::Formatter<W>) -> fmt::Result {
        f.write_str(match self {
            Operation::Front => "front",
            Operation::First => "first",
            Operation::Count => "count",
            Operation::CountOf => "count_of",
            Operation::SumOf => "sum_of",
            Operation::Best => "best",
            Operation::LenAndRoom => "len and room",
            Operation::PushBack => "push_back",
            Operation::PopFront => "pop_front",
            Operation::RemoveFirst => "remove_first",
            Operation::RemoveAll => "remove_all",
            Operation::ReplaceFirst => "replace_first",
        })
    }
}
