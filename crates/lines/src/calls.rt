//! The call of a line.

ghost use Rattle.std.specs.Prelude.{◌≡◌, drop};
ghost use Rattle.script.specs.Numbers.{numbers_in};
ghost use Rattle.script.specs.Words.{words, remaining};
ghost use Rattle.lines.specs.Calls.{values_in, ticket_in, fill_in, in_call, limit_numbers, scope_first, or_scope, call_in, line_in, at_line};
ghost use Rattle.lines.specs.Spelling.{LineTold, ReadsBack};
ghost use Rattle.lines.specs.declared.verbs.Verb.TheVariants as named;

use crate::faults::{CallFault, FieldFault, LineFault};
use crate::verbs::{ScopeWord, Verb};
use script::{Reader, numbers};
use terms::{Call, ConditionNumbers, Fill, LimitKind, LimitNumbers, Ticket, ValueNumbers};

fn conditions_in(n: &[u64; 12]) -> ConditionNumbers
    ensures { result ≡ (values_in n.now).conditions }
{
    ConditionNumbers {
        class: n[3],
        phase: n[4],
        flag: n[5],
        nbb: n[6],
        nbo: n[7],
        bid: n[8],
        offer: n[9],
        close: n[10],
    }
}

fn values_in(n: &[u64; 12]) -> ValueNumbers
    ensures { result ≡ values_in n.now }
{
    ValueNumbers {
        option: n[1],
        strike: n[2],
        conditions: conditions_in(n),
        underlying: n[11],
    }
}

fn ticket_in(n: &[u64; 8]) -> Ticket
    ensures { result ≡ ticket_in n.now }
{
    Ticket {
        login: n[0],
        number: n[1],
        series: n[2],
        side: n[3],
        kind: n[4],
        marks: n[5],
        price: n[6],
        contracts: n[7],
    }
}

fn fill_in(n: &[u64; 5]) -> Fill
    ensures { result ≡ fill_in n.now }
{
    Fill {
        login: n[0],
        number: n[1],
        side: n[2],
        contracts: n[3],
        price: n[4],
    }
}

/// The numbers of a call, and then the end of the line.
fn fields<const N: usize>(verb: Verb, reader: &mut Reader) -> Result<[u64; N], FieldFault>
    ensures { result ≡ in_call verb (numbers_in N 0 (remaining reader.old)) }
{
    numbers(reader).map_err(|fault| FieldFault::Number { verb, fault })
}

/// The word of a scope.
fn scope_word(verb: Verb, reader: &mut Reader) -> Result<ScopeWord, FieldFault>
    ensures value { result ≡ or_scope verb (scope_first (remaining reader.old)) }
    ensures rest { remaining reader.new ≡ drop 1 (remaining reader.old) }
{
    reader
        .next()
        .and_then(ScopeWord::named)
        .ok_or(FieldFault::Scope { verb })
}

/// The numbers of a limit. The interval of one of kind 4 may be left out.
fn limit_numbers(reader: &mut Reader) -> Result<[u64; 4], FieldFault>
    ensures { result ≡ in_call named.Limit (limit_numbers (remaining reader.old)) }
{
    let mut ahead = *reader;
    match numbers::<3>(&mut ahead) {
        Ok(n) if LimitKind::try_from(n[1]) == Ok(LimitKind::Size) => Ok([n[0], n[1], n[2], 0]),
        _ => fields(Verb::Limit, reader),
    }
}

/// The call of each word, from the words that follow it.
fn call_of(verb: Verb, reader: &mut Reader) -> Result<Call, FieldFault>
    ensures { result ≡ call_in verb (remaining reader.old) }
{
    let call = match verb {
        Verb::Tick => {
            let [time] = fields::<1>(verb, reader)?;
            Call::Tick { time }
        }
        Verb::Values => {
            let n = fields::<12>(verb, reader)?;
            Call::Values {
                series: n[0],
                values: values_in(&n),
            }
        }
        Verb::Open => {
            let [login, acronym, role, reach] = fields::<4>(verb, reader)?;
            Call::Open {
                login,
                acronym,
                role,
                reach,
            }
        }
        Verb::Retire => {
            let [login] = fields::<1>(verb, reader)?;
            Call::Retire { login }
        }
        Verb::Limit => {
            let scope = scope_word(verb, reader)?;
            let [n, kind, limit, interval] = limit_numbers(reader)?;
            let scope = scope.of(n);
            Call::Limit {
                limit: LimitNumbers {
                    scope,
                    kind,
                    limit,
                    interval,
                },
            }
        }
        Verb::Enter => {
            let n = fields::<8>(verb, reader)?;
            Call::Enter {
                ticket: ticket_in(&n),
            }
        }
        Verb::Cancel => {
            let [login, number] = fields::<2>(verb, reader)?;
            Call::Cancel { login, number }
        }
        Verb::Strike => {
            let [] = fields::<0>(verb, reader)?;
            Call::Strike
        }
        Verb::Take => {
            let [login] = fields::<1>(verb, reader)?;
            Call::Take { login }
        }
        Verb::Receipt => {
            let n = fields::<5>(verb, reader)?;
            Call::Receipt { fill: fill_in(&n) }
        }
        Verb::PutBack => {
            let n = fields::<5>(verb, reader)?;
            Call::PutBack { fill: fill_in(&n) }
        }
        Verb::Kill => {
            let scope = scope_word(verb, reader)?;
            let [n, reach, block] = fields::<3>(verb, reader)?;
            Call::Kill {
                scope: scope.of(n),
                reach,
                block,
            }
        }
        Verb::Release => {
            let scope = scope_word(verb, reader)?;
            let [n] = fields::<1>(verb, reader)?;
            Call::Release { scope: scope.of(n) }
        }
    };
    Ok(call)
}

/// The first word says which call it is, and what follows are its fields.
fn by_first_word(line: &[u8]) -> Result<Option<Call>, CallFault>
    ensures { result ≡ line_in (words line.now) }
{
    let mut reader = Reader::new(line);
    let Some(word) = reader.next() else {
        return Ok(None);
    };
    let verb = Verb::named(word).ok_or(CallFault::Unknown)?;
    Ok(Some(call_of(verb, &mut reader)?))
}

/// The call of a line, or none where the line has no word.
pub fn read_call(line: &[u8]) -> Result<Option<Call>, CallFault>
    ensures value { result ≡ line_in (words line.now) }
    ensures told { LineTold (words line.now) result }
    ensures back { ReadsBack line.now result }
{
    by_first_word(line)
}

/// The same of the line of that number in its file, which a fault then names.
pub fn read_line(number: u64, line: &[u8]) -> Result<Option<Call>, LineFault>
    ensures { result ≡ at_line number (line_in (words line.now)) }
{
    read_call(line).map_err(|fault| LineFault {
        line: number,
        fault,
    })
}
