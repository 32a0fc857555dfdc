//! Plays a bare market: rest, withdraw, sweep, strike, slips.

#![tactic(auto)]

mod fault;
mod play;
mod shown;

use chains::Slot;
use fault::Fault;
use play::{Line, play};
use std::io;
use tables::{ENTRY_SLOTS, SLIP_SLOTS};
use terms::{Entry, Kind, Side, Slip};
use time_market::TimeMarket;

fn by_time(rt: &HostRuntime) -> Result<(), Fault> {
    let blank = Entry::try_from(Line {
        series: 1,
        login: 1,
        number: 1,
        side: Side::Buy,
        kind: Kind::Order,
        price: 1,
        contracts: 1,
    })?;
    let mut entries = [Slot {
        next: 0,
        item: blank,
    }; ENTRY_SLOTS];
    let mut slips = [Slot {
        next: 0,
        item: Slip::from(blank),
    }; SLIP_SLOTS];
    let mut market = TimeMarket::try_new(&mut entries, &mut slips)?;
    println!(rt; "price, then time")?;
    play(rt, &mut market)
}

fn main(rt: HostRuntime) -> io::Result<()> {
    match by_time(&rt) {
        Ok(()) => Ok(()),
        Err(Fault::Output(e)) => Err(e),
        Err(refused) => println!(rt; "{refused}"),
    }
}
