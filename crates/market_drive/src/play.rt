//! A few calls of a market, with what each answers.

use crate::fault::Fault;
use crate::shown::{Deal, Shown};
use market::Market;
use std::fmt;
use terms::{
    Contracts, Entry, Kind, Login, OrderNumber, Price, Reach, Refusal, Series, Side, Slip,
};

/// An entry to rest, in plain numbers.
#[derive(Clone, Copy)]
pub(crate) struct Line {
    pub(crate) series: u64,
    pub(crate) login: u64,
    pub(crate) number: u64,
    pub(crate) side: Side,
    pub(crate) kind: Kind,
    pub(crate) price: u64,
    pub(crate) contracts: u64,
}

impl TryFrom<Line> for Entry {
    type Error = Refusal;

    fn try_from(line: Line) -> Result<Entry, Refusal> {
        let login = Login::try_from(line.login)?;
        let number = OrderNumber::try_from(line.number)?;
        let price = Price::try_from(line.price)?;
        let contracts = Contracts::try_from(line.contracts)?;
        Ok(Entry {
            login,
            number,
            side: line.side,
            kind: line.kind,
            price,
            contracts,
        })
    }
}

impl fmt::Display for Line {
    fn fmt<W: fmt::Write>(&self, f: &mut fmt::Formatter<W>) -> fmt::Result {
        let Line {
            series,
            login,
            number,
            side,
            price,
            contracts,
            ..
        } = *self;
        write!(
            f,
            "series {series}, login {login} number {number}, {side} {contracts} at {price}"
        )
    }
}

fn rest<M: Market>(rt: &HostRuntime, market: &mut M, line: Line) -> Result<(), Fault> {
    let series = Series::try_from(line.series)?;
    let entry = Entry::try_from(line)?;
    print!(rt; "rest: {line}")?;
    match market.rest(series, entry) {
        Ok(()) => println!(rt; " -> rests")?,
        Err(e) => println!(rt; " -> {}", e.number())?,
    }
    Ok(())
}

fn withdraw<M: Market>(
    rt: &HostRuntime,
    market: &mut M,
    login: u64,
    number: u64,
) -> Result<(), Fault> {
    print!(rt; "withdraw: login {login} number {number}")?;
    match market.withdraw(Login::try_from(login)?, OrderNumber::try_from(number)?) {
        Ok(left) => println!(rt; " -> {left} contracts")?,
        Err(e) => println!(rt; " -> {}", e.number())?,
    }
    Ok(())
}

fn sweep<M: Market>(rt: &HostRuntime, market: &mut M, login: u64, reach: u64) -> Result<(), Fault> {
    let n = market.sweep(Login::try_from(login)?, Reach::try_from(reach)?);
    println!(rt; "sweep: login {login}, reach {reach} -> {n} contracts")?;
    Ok(())
}

fn strike<M: Market>(rt: &HostRuntime, market: &mut M) -> Result<(), Fault> {
    match market.strike() {
        Ok(None) => println!(rt; "strike -> none")?,
        Ok(Some(trade)) => println!(rt; "strike -> {}", Deal(trade))?,
        Err(e) => println!(rt; "strike -> {}", e.number())?,
    }
    Ok(())
}

fn slips<M: Market>(rt: &HostRuntime, market: &mut M, number: u64) -> Result<(), Fault> {
    let login = Login::try_from(number)?;
    println!(rt;
        "first slip of login {number}: {}",
        Shown(market.first_slip(login))
    )?;
    println!(rt; "dropped: {}", Shown(market.drop_slip(login)))?;
    Ok(())
}

/// Two lines of entries that cross, strikes until nothing does, and what is left.
pub(crate) fn play<M: Market>(rt: &HostRuntime, market: &mut M) -> Result<(), Fault> {
    let sell = Line {
        series: 3,
        login: 1,
        number: 7,
        side: Side::Sell,
        kind: Kind::Quote,
        price: 100,
        contracts: 10,
    };
    rest(rt, market, sell)?;
    rest(rt, market, sell)?;
    rest(
        rt,
        market,
        Line {
            number: 8,
            price: 99,
            ..sell
        },
    )?;
    rest(
        rt,
        market,
        Line {
            login: 2,
            contracts: 5,
            ..sell
        },
    )?;
    strike(rt, market)?;
    let buy = Line {
        login: 3,
        number: 1,
        side: Side::Buy,
        kind: Kind::Order,
        price: 100,
        contracts: 12,
        ..sell
    };
    rest(rt, market, buy)?;
    strike(rt, market)?;
    strike(rt, market)?;
    strike(rt, market)?;
    withdraw(rt, market, 2, 7)?;
    withdraw(rt, market, 2, 7)?;
    slips(rt, market, 1)?;
    slips(rt, market, 3)?;
    slips(rt, market, 4)?;
    sweep(rt, market, 1, 2)?;
    sweep(rt, market, 1, 3)?;
    slips(rt, market, 1)?;
    slips(rt, market, 3)?;
    println!(rt; "bare: {}", market.is_bare())?;
    Ok(())
}
