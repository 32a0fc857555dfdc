//! What the ledger writes down of an event.

ghost use Rattle.std.specs.Prelude.{◌≡◌};
ghost use Rattle.ledger.specs.Postings.{cancelling, accepting, receipting, posting};

use crate::sums::Sums;
use terms::{EnterAnswer, Event, Fill, ScopeNumber, Ticket};

/// Contracts of a firm, or of the firm that a login was opened for.
#[derive(Clone, Copy)]
pub(crate) struct Item {
    pub(crate) scope: ScopeNumber,
    pub(crate) sums: Sums,
}

impl Item {
    fn cancelled(scope: ScopeNumber, contracts: u32) -> Item
        ensures { result ≡ cancelling scope contracts }
    {
        Item {
            scope,
            sums: Sums {
                cancelled: u64::from(contracts),
                ..Sums::default()
            },
        }
    }

    fn entered(ticket: Ticket, answer: EnterAnswer) -> Item
        ensures { result ≡ accepting ticket answer }
    {
        let accepted = if answer.number() == 0 {
            ticket.contracts
        } else {
            0
        };
        Item {
            scope: ScopeNumber::Login(ticket.login),
            sums: Sums {
                accepted,
                cancelled: u64::from(answer.effect().cancelled),
                ..Sums::default()
            },
        }
    }

    fn receipted(fill: Fill) -> Item
        ensures { result ≡ receipting fill }
    {
        Item {
            scope: ScopeNumber::Login(fill.login),
            sums: Sums {
                receipted: fill.contracts,
                ..Sums::default()
            },
        }
    }
}

/// What is written down of an event.
#[derive(Clone, Copy)]
pub(crate) enum Posting {
    /// A login is opened for a firm.
    Opened { login: u64, acronym: u64 },
    /// Contracts are accepted, receipted or cancelled.
    Contracts(Item),
    /// Contracts of the two sides of a trade are cancelled with it.
    Sides { buyer: Item, seller: Item },
}

impl Posting {
    /// What an event comes to: nothing, unless it opens a login or has contracts accepted, receipted or cancelled.
    pub(crate) fn of(event: &Event) -> Option<Posting>
        ensures { result ≡ posting event.now }
    {
        let posting = match *event {
            Event::Open {
                login,
                acronym,
                answer: Ok(()),
                ..
            } => Posting::Opened { login, acronym },
            Event::Retire {
                login,
                answer: Ok(contracts),
            }
            | Event::Cancel {
                login,
                answer: Ok(contracts),
                ..
            } => Posting::Contracts(Item::cancelled(ScopeNumber::Login(login), contracts)),
            Event::Kill {
                scope,
                answer: Ok(contracts),
                ..
            } => Posting::Contracts(Item::cancelled(scope, contracts)),
            Event::Enter { ticket, answer } => Posting::Contracts(Item::entered(ticket, answer)),
            Event::Receipt {
                fill,
                answer: Ok(()),
            } => Posting::Contracts(Item::receipted(fill)),
            Event::Strike {
                answer: Ok(Some(struck)),
            } => {
                let buyer = ScopeNumber::Login(struck.trade.buyer.login);
                let seller = ScopeNumber::Login(struck.trade.seller.login);
                Posting::Sides {
                    buyer: Item::cancelled(buyer, struck.buy.cancelled),
                    seller: Item::cancelled(seller, struck.sell.cancelled),
                }
            }
            _ => return None,
        };
        Some(posting)
    }
}
