//! The example set before the standard pile.

use crate::Quota;
use checks::{Check, Pile};
use standard::{StandardPile, standard_pile};
use terms::{Asked, Notice, Ticket};

fn entry_of(acronym: u64) -> Asked {
    Asked {
        acronym,
        role: 1,
        ticket: Ticket {
            login: 1,
            number: 1,
            series: 1,
            side: 1,
            kind: 1,
            marks: 0,
            price: 100,
            contracts: 1,
        },
    }
}

/// The number that an entry is turned down with, 0 where it passes.
fn judged(pile: &Pile<Quota, StandardPile>, asked: Asked) -> u32 {
    pile.judge(asked)
        .err()
        .map_or(0, |turn_down| turn_down.number())
}

#[test]
fn the_third_entry_of_a_firm_is_turned_down(rt: HostRuntime) {
    let mut pile = Pile {
        first: Quota::new(2),
        rest: standard_pile(),
    };
    for _ in 0..2 {
        assert_eq!(rt; judged(&pile, entry_of(1)), 0);
        let _ = pile.tell(Notice::Entered { asked: entry_of(1) });
    }
    assert_eq!(rt; judged(&pile, entry_of(1)), 45);
    assert_eq!(rt; judged(&pile, entry_of(2)), 0, "another firm has its own");
    pile.renew();
    assert_eq!(rt; judged(&pile, entry_of(1)), 0);
}
