//! The program: plays a day, or answers questions of price, from standard input.

#![tactic(auto)]

mod day;
mod faults;
mod price;
mod script_file;

use day::{Priority, play_day};
use faults::Stop;
use price::price_desk;
use script::number;
use std::process::ExitCode;
use std::{env, io};
use tables::SLIP_SLOTS;

/// What is asked of the program.
#[derive(Clone, Copy)]
enum Task {
    Price,
    Day {
        priority: Priority,
        slip_slots: usize,
    },
}

/// The length of a table, as far as it can be one.
fn slots_in(word: &str) -> Option<usize> {
    number(word.as_bytes()).map(|n| n as usize)
}

/// The market and the table of a day; both may be left out.
fn day_task(first: Option<&str>, second: Option<&str>) -> Option<Task> {
    let (priority, slots) = match first {
        None => (Priority::Time, None),
        Some("time") => (Priority::Time, second),
        Some("size") => (Priority::Size, second),
        Some(_) if second.is_some() => return None,
        Some(word) => (Priority::Time, Some(word)),
    };
    let slip_slots = match slots {
        None => SLIP_SLOTS,
        Some(word) => slots_in(word)?,
    };
    Some(Task::Day {
        priority,
        slip_slots,
    })
}

/// What the words after the program's name ask for, if they make sense.
fn task_in(rt: &HostRuntime) -> anyhow::Result<Option<Task>> {
    let mut args = env::args(rt)?;
    let _program = args.next();
    let Some(name) = args.next() else {
        return Ok(None);
    };
    let first = args.next();
    let second = args.next();
    if args.next().is_some() {
        return Ok(None);
    }
    match name.as_str() {
        "price" if first.is_none() => Ok(Some(Task::Price)),
        "day" => Ok(day_task(first.as_deref(), second.as_deref())),
        _ => Ok(None),
    }
}

fn play(rt: &HostRuntime) -> Result<(), Stop> {
    match task_in(rt)? {
        None => Err(Stop::Usage),
        Some(Task::Price) => Ok(price_desk(rt)?),
        Some(
            Task::Day {
                priority,
                slip_slots,
            },
        ) => Ok(play_day(rt, priority, slip_slots)?),
    }
}

fn main(rt: HostRuntime) -> io::Result<ExitCode> {
    match play(&rt) {
        Ok(()) => Ok(ExitCode::SUCCESS),
        Err(stop) => {
            eprintln!(rt; "cudrelis: {stop}")?;
            Ok(ExitCode::FAILURE)
        }
    }
}
