//! Drives chains of two record types through random operations, and compares every answer with a plain Vec.

#![tactic(auto)]

mod drive;
mod mirror;
mod operation;
mod random;
mod records;

use chains::Slot;
use drive::{Tally, drive};
use operation::Operation;
use records::{Large, Record, Small};
use std::io;

const TURNS: u32 = 6000;

/// A slot of a new table.
fn blank<T: Record>() -> Slot<T> {
    Slot {
        next: 0,
        item: T::new(0, 0, 0),
    }
}

fn report(rt: &HostRuntime, title: &str, tally: &Tally) -> io::Result<()> {
    println!(rt; "{title}")?;
    for (operation, n) in Operation::ALL.iter().zip(&tally.counts) {
        println!(rt; "  {operation} {n}")?;
    }
    let Tally {
        refused,
        held,
        filled,
        ..
    } = tally;
    println!(rt; "  refused for want of room {refused}")?;
    println!(rt; "  held at the end {held}, room for {filled} more")?;
    match tally.differ {
        0 => println!(rt; "  all answers equal"),
        n => println!(rt; "  {n} answers differ"),
    }
}

fn main(rt: HostRuntime) -> io::Result<()> {
    let heap = rt.alloc();
    let mut small = [blank::<Small>(); 10];
    let mut large = [blank::<Large>(); 33];
    let mut none = [blank::<Small>(); 0];
    report(
        &rt,
        "small records, 9 places",
        &drive(heap, &mut small, 1, TURNS)?,
    )?;
    report(
        &rt,
        "large records, 32 places",
        &drive(heap, &mut large, 2, TURNS)?,
    )?;
    report(
        &rt,
        "an empty table, no places",
        &drive(heap, &mut none, 3, 300)?,
    )
}
