//! A whole day: a script is read, played through a new gate, and answered line by line.

use crate::faults::DayFault;
use crate::script_file::{Script, read_script};
use chains::Slot;
use checks::Check;
use gate::{Gate, Row};
use ledger::{FirmLine, Ledger, Listing, Logins, Standing};
use lines::{Answer, Answered};
use market::Market;
use size_market::SizeMarket;
use standard::standard_pile;
use std::fmt::Write;
use std::io::Read;
use tables::{ENTRY_SLOTS, long_enough};
use terms::{Call, Contracts, Entry, Event, Kind, Login, OrderNumber, Price, Refusal, Side, Slip};
use time_market::TimeMarket;

/// How full the output may grow before it is written.
const FULL: usize = 65_536;

/// An event that stands where none has come yet.
const NO_EVENT: Event = Event::Strike { answer: Ok(None) };

/// Which market a day is played above.
#[derive(Clone, Copy)]
pub(crate) enum Priority {
    Time,
    Size,
}

/// What fills a table before a market takes it.
fn filler() -> Result<Entry, Refusal> {
    Ok(Entry {
        login: Login::try_from(1)?,
        number: OrderNumber::try_from(1)?,
        side: Side::Buy,
        kind: Kind::Order,
        price: Price::try_from(1)?,
        contracts: Contracts::try_from(1)?,
    })
}

/// How a login stands, as the report says it. A function, since neither type is of this crate, whose `From` it could be.
fn standing_of(row: Row) -> Standing {
    match row.standing {
        gate::Standing::Free => Standing::Free,
        gate::Standing::Open(session) => Standing::Open {
            acronym: session.acronym,
        },
        gate::Standing::Leaving(session) => Standing::Leaving {
            acronym: session.acronym,
        },
    }
}

/// Plays the calls through a new gate, and tells how each login then stands.
fn played<M: Market, C: Check>(
    market: &mut M,
    checks: &mut C,
    calls: &[Call],
    events: &mut [Event],
) -> Result<[Standing; 24], Refusal> {
    let gate = Gate::day(market, checks, calls, events)?;
    let mut standings = [Standing::Free; 24];
    for (login, standing) in (1..).zip(standings.iter_mut()) {
        *standing = standing_of(gate.row(login));
    }
    Ok(standings)
}

/// Plays the calls above a market over two new tables.
fn played_above(
    rt: &HostRuntime,
    priority: Priority,
    slip_slots: usize,
    calls: &[Call],
    events: &mut [Event],
) -> Result<[Standing; 24], DayFault> {
    let item = filler()?;
    let slip = Slip::from(item);
    let mut entries = vec![in rt.alloc(); Slot { next: 0, item }; ENTRY_SLOTS]?;
    let mut slips = vec![in rt.alloc(); Slot {
        next: 0,
        item: slip
    }; slip_slots]?;
    long_enough(entries.as_slice(), slips.as_slice())?;
    let mut checks = standard_pile();
    let standings = match priority {
        Priority::Time => {
            let mut market = TimeMarket::new(entries.as_mut_slice(), slips.as_mut_slice());
            played(&mut market, &mut checks, calls, events)?
        }
        Priority::Size => {
            let mut market = SizeMarket::new(entries.as_mut_slice(), slips.as_mut_slice());
            played(&mut market, &mut checks, calls, events)?
        }
    };
    Ok(standings)
}

/// Writes out what has gathered, where there is much of it.
fn flush_full(rt: &HostRuntime, out: &mut String) -> Result<(), DayFault> {
    if out.len() >= FULL {
        rt.write_all(out.as_bytes())?;
        out.clear();
    }
    Ok(())
}

/// Writes the line of each call with its answer, and notes the events.
fn write_answers(
    rt: &HostRuntime,
    script: &Script<'_>,
    events: &[Event],
    ledger: &mut Ledger,
    out: &mut String,
) -> Result<(), DayFault> {
    for (line, event) in script.lines.iter().zip(events) {
        ledger.note(event);
        let answered = Answered {
            number: line.number,
            line: line.text,
            answer: Answer::of(event),
        };
        writeln!(out, "{answered}")?;
        flush_full(rt, out)?;
    }
    Ok(())
}

/// Writes how the logins stand, and what each firm's contracts came to.
fn write_report(
    standings: &[Standing; 24],
    ledger: &Ledger,
    out: &mut String,
) -> Result<(), DayFault> {
    for listing in [Listing::Free, Listing::Open, Listing::Leaving] {
        let logins = Logins { listing, standings };
        writeln!(out, "{logins}")?;
    }
    for acronym in 1..=8 {
        if let Some(sums) = ledger.sums(acronym) {
            let firm = FirmLine { acronym, sums };
            writeln!(out, "{firm}")?;
        }
    }
    Ok(())
}

/// Plays a script: answers up to its end or its first fault, and where there is none the report.
fn play_script(
    rt: &HostRuntime,
    priority: Priority,
    slip_slots: usize,
    script: &Script<'_>,
) -> Result<(), DayFault> {
    let mut events = vec![in rt.alloc(); NO_EVENT; script.calls.len()]?;
    let standings = played_above(
        rt,
        priority,
        slip_slots,
        script.calls.as_slice(),
        events.as_mut_slice(),
    )?;
    let mut ledger = Ledger::new();
    let mut out = String::new(rt.alloc());
    write_answers(rt, script, events.as_slice(), &mut ledger, &mut out)?;
    if script.fault.is_none() {
        write_report(&standings, &ledger, &mut out)?;
    }
    rt.write_all(out.as_bytes())?;
    script
        .fault
        .map_or(Ok(()), |fault| Err(DayFault::Line(fault)))
}

/// Plays the day that stands in the input.
pub(crate) fn play_day(
    rt: &HostRuntime,
    priority: Priority,
    slip_slots: usize,
) -> Result<(), DayFault> {
    let mut text = Vec::new(rt.alloc());
    let _ = rt.stdin().read_to_end(&mut text)?;
    let script = read_script(rt.alloc(), text.as_slice())?;
    play_script(rt, priority, slip_slots, &script)
}
