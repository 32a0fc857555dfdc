//! The ledger: each event of a day is noted once, as it comes.

ghost use Rattle.std.specs.Prelude.{◌≡◌, List, [], ◌∷◌};
ghost use Rattle.terms.specs.declared.events.Event.{Event as Happening};
ghost use Rattle.terms.specs.Tables.{at};
ghost use Rattle.ledger.specs.Postings.{whose};
ghost use Rattle.ledger.specs.Accounts.{unopened, told_of, posted, marked, Tells, Reported};

use crate::postings::{Item, Posting};
use crate::sums::Sums;
use checks::{put_at, read_at};
use terms::{Event, ScopeNumber};

/// A firm's contracts, and whether a login was opened for it. Contracts may come to a firm before its first login does, so they stand beside the flag and not in an `Option`.
#[derive(Clone, Copy, Default)]
struct Account {
    opened: bool,
    sums: Sums,
}

/// The firm that each login was last opened for, and each firm's account.
#[derive(Clone, Copy)]
pub struct Ledger {
    holders: [Option<u64>; 24],
    accounts: [Account; 8],
}

impl Ledger {
    /// Nothing is noted yet.
    pub fn new() -> Ledger
        ensures { Tells [] result }
    {
        Ledger {
            holders: [None; 24],
            accounts: [Account::default(); 8],
        }
    }

    /// The firm of a scope: of a login, the one that it was last opened for.
    fn holder(&self, scope: ScopeNumber) -> Option<u64>
        ensures { result ≡ whose self.now.holders scope }
    {
        match scope {
            ScopeNumber::Login(login) => read_at(&self.holders, login, None),
            ScopeNumber::Acronym(acronym) => Some(acronym),
        }
    }

    /// A firm's account; a number that is no firm's has nothing in it.
    fn account(&self, acronym: u64) -> Account
        ensures { result ≡ at unopened self.now.accounts acronym }
    {
        read_at(&self.accounts, acronym, Account::default())
    }

    /// Adds contracts to those of their firm.
    fn post(&mut self, item: Item)
        ensures { self.new ≡ posted item self.old }
    {
        let Some(firm) = self.holder(item.scope) else {
            return;
        };
        let mut account = self.account(firm);
        account.sums = account.sums.saturating_add(item.sums);
        put_at(&mut self.accounts, firm, account);
    }

    /// A login is opened for a firm.
    fn mark(&mut self, login: u64, acronym: u64)
        ensures { self.new ≡ marked login acronym self.old }
    {
        put_at(&mut self.holders, login, Some(acronym));
        let mut account = self.account(acronym);
        account.opened = true;
        put_at(&mut self.accounts, acronym, account);
    }

    /// Notes an event. Whatever events were noted before it, the ledger then tells of them and of this one.
    pub fn note(&mut self, event: &Event)
        ensures { (h : List Happening) → Tells h self.old → Tells (event.now ∷ h) self.new }
    {
        match Posting::of(event) {
            None => (),
            Some(Posting::Opened { login, acronym }) => self.mark(login, acronym),
            Some(Posting::Contracts(item)) => self.post(item),
            Some(Posting::Sides { buyer, seller }) => {
                self.post(buyer);
                self.post(seller);
            }
        }
    }

    /// What a firm's contracts come to, if a login was opened for it.
    pub fn sums(&self, acronym: u64) -> Option<Sums>
        ensures value { result ≡ told_of (at unopened self.now.accounts acronym) }
        ensures told { (h : List Happening) → Tells h self.now → Reported h acronym result }
    {
        let account = self.account(acronym);
        account.opened.then_some(account.sums)
    }
}
