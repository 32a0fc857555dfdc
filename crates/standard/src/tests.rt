//! The standard pile at work: who judges first, and when the windows trip.

use crate::{StandardPile, standard_pile};
use checks::{Check, NO_CAUSE};
use terms::{
    Asked, Causes, ConditionNumbers, Fill, LimitNumbers, Notice, ScopeNumber, Ticket, ValueNumbers,
};

/// An order of login 1 of firm 1, a member, to buy in series 1.
fn buy(price: u64, contracts: u64) -> Asked {
    Asked {
        acronym: 1,
        role: 1,
        ticket: Ticket {
            login: 1,
            number: 1,
            series: 1,
            side: 1,
            kind: 1,
            marks: 0,
            price,
            contracts,
        },
    }
}

/// A put of strike 5,000 in an open market that offers it at 100.
fn values() -> ValueNumbers {
    ValueNumbers {
        option: 2,
        strike: 5_000,
        conditions: ConditionNumbers {
            class: 1,
            phase: 2,
            flag: 1,
            nbb: 90,
            nbo: 100,
            bid: 0,
            offer: 0,
            close: 0,
        },
        underlying: 0,
    }
}

fn set_limit(pile: &mut StandardPile, scope: ScopeNumber, kind: u64, limit: u64, interval: u64) {
    let limit = LimitNumbers {
        scope,
        kind,
        limit,
        interval,
    };
    let _ = pile.tell(Notice::Limited { acronym: 1, limit });
}

/// The number that an entry is turned down with, 0 where it passes.
fn judged(pile: &StandardPile, asked: Asked) -> u32 {
    pile.judge(asked)
        .err()
        .map_or(0, |turn_down| turn_down.number())
}

/// The causes of an entry that is accepted at a time.
fn enter_at(pile: &mut StandardPile, time: u64) -> Causes {
    let _ = pile.tell(Notice::Ticked { time });
    pile.tell(Notice::Entered { asked: buy(100, 1) })
}

fn fill_at(pile: &mut StandardPile, time: u64, contracts: u64) -> Causes {
    let _ = pile.tell(Notice::Ticked { time });
    let fill = Fill {
        login: 1,
        number: 1,
        side: 1,
        contracts,
        price: 100,
    };
    pile.tell(Notice::Filled { acronym: 1, fill })
}

/// What trips the login alone.
fn for_login(login: u8) -> Causes {
    Causes { login, acronym: 0 }
}

/// What trips the firm alone.
fn for_firm(acronym: u8) -> Causes {
    Causes { login: 0, acronym }
}

#[test]
fn judges_by_the_first_that_objects(rt: HostRuntime) {
    let mut pile = standard_pile();
    assert_eq!(rt; judged(&pile, buy(5_000, 11)), 0, "nothing is known yet");
    let _ = pile.tell(Notice::Valued {
        series: 1,
        values: values(),
    });
    set_limit(&mut pile, ScopeNumber::Acronym(1), 4, 10, 0);
    assert_eq!(rt; judged(&pile, buy(5_000, 11)), 41);
    assert_eq!(rt; judged(&pile, buy(5_000, 10)), 42);
    assert_eq!(rt; judged(&pile, buy(126, 10)), 43);
    assert_eq!(rt; judged(&pile, buy(125, 10)), 0);
}

#[test]
fn a_new_gate_knows_nothing(rt: HostRuntime) {
    let mut pile = standard_pile();
    let _ = pile.tell(Notice::Valued {
        series: 1,
        values: values(),
    });
    assert_eq!(rt; judged(&pile, buy(126, 10)), 43);
    pile.renew();
    assert_eq!(rt; judged(&pile, buy(126, 10)), 0);
}

#[test]
fn three_within_a_second_trip(rt: HostRuntime) {
    let mut pile = standard_pile();
    set_limit(&mut pile, ScopeNumber::Login(1), 1, 3, 1_000);
    for time in [0, 500, 1_000] {
        assert_eq!(rt; enter_at(&mut pile, time), NO_CAUSE);
    }
    let _ = pile.tell(Notice::Released {
        acronym: 1,
        scope: ScopeNumber::Login(1),
    });
    assert_eq!(rt; enter_at(&mut pile, 2_000), NO_CAUSE);
    assert_eq!(rt; enter_at(&mut pile, 2_500), NO_CAUSE);
    assert_eq!(rt; enter_at(&mut pile, 2_999), for_login(61));
    assert_eq!(rt;
        enter_at(&mut pile, 2_999),
        NO_CAUSE,
        "a tripped window counts nothing"
    );
}

#[test]
fn ten_entries_in_a_minute_trip_the_firm(rt: HostRuntime) {
    let mut pile = standard_pile();
    set_limit(&mut pile, ScopeNumber::Acronym(1), 1, 10, 60_000);
    for _ in 0..3 {
        assert_eq!(rt; enter_at(&mut pile, 0), NO_CAUSE);
    }
    for _ in 0..9 {
        assert_eq!(rt; enter_at(&mut pile, 90_000), NO_CAUSE);
    }
    assert_eq!(rt; enter_at(&mut pile, 120_000), for_firm(61));
}

#[test]
fn a_thousand_contracts_in_a_minute_trip_the_firm(rt: HostRuntime) {
    let mut pile = standard_pile();
    set_limit(&mut pile, ScopeNumber::Acronym(1), 2, 1_000, 60_000);
    assert_eq!(rt; fill_at(&mut pile, 0, 600), NO_CAUSE);
    assert_eq!(rt; fill_at(&mut pile, 75_000, 500), NO_CAUSE);
    assert_eq!(rt; fill_at(&mut pile, 120_000, 500), for_firm(62));
}

#[test]
fn the_thirty_second_trips(rt: HostRuntime) {
    let mut pile = standard_pile();
    set_limit(&mut pile, ScopeNumber::Login(1), 1, 1_000, 60_000);
    for _ in 0..31 {
        assert_eq!(rt; enter_at(&mut pile, 5), NO_CAUSE);
    }
    assert_eq!(rt; enter_at(&mut pile, 5), for_login(61));
}
