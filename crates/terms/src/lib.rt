//! The venue's vocabulary: numbers in their ranges, words with few values, refusals, what is known of a series, what rests and waits, and the calls of a gate.

#![tactic(auto)]

mod bounded;
mod entries;
mod events;
mod kinds;
mod messages;
mod ranges;
mod refusal;
mod values;

pub use bounded::Bounded;
pub use entries::{Entry, Slip};
pub use events::{Call, Effect, EnterAnswer, Event, Party, Struck, Trade};
pub use kinds::{Class, Kind, LimitKind, Marks, OptionType, Phase, Reach, Role, Side, flag};
pub use messages::{Asked, Causes, Fill, LimitNumbers, Notice, ScopeNumber, Ticket, first_cause};
pub use ranges::{
    Acronym, Contracts, Interval, Limit, Login, OrderNumber, Price, Series, Time, TurnDown,
    optional_price,
};
pub use refusal::{Refusal, UnknownNumber};
pub use values::{
    BidOffer, ConditionNumbers, Conditions, Request, RequestNumbers, Scope, ValueNumbers, Values,
};
