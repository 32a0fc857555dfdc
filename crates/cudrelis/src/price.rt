//! The price desk: a line with a question, and the line that answers it.

ghost use Rattle.std.specs.Prelude.{◌≡◌};
ghost use Rattle.cudrelis.specs.Question.{request_in, conditions_in};

use anyhow::anyhow;
use checks::{Basis, Judgement, judge_price};
use script::{Fault, Reader, numbers};
use std::fmt;
use std::io::{BufRead, BufReader};
use terms::{ConditionNumbers, Refusal, RequestNumbers};

/// The fields of a question, in their order.
const FIELDS: [&str; 13] = [
    "ROLE", "SIDE", "KIND", "MARKS", "PRICE", "CLASS", "PHASE", "FLAG", "NBB", "NBO", "BID",
    "OFFER", "CLOSE",
];

/// What is asked for.
fn request_in(fields: &[u64; 13]) -> RequestNumbers
    ensures { result ≡ request_in fields.now }
{
    RequestNumbers {
        role: fields[0],
        side: fields[1],
        kind: fields[2],
        marks: fields[3],
        price: fields[4],
    }
}

/// What is known of the series.
fn conditions_in(fields: &[u64; 13]) -> ConditionNumbers
    ensures { result ≡ conditions_in fields.now }
{
    ConditionNumbers {
        class: fields[5],
        phase: fields[6],
        flag: fields[7],
        nbb: fields[8],
        nbo: fields[9],
        bid: fields[10],
        offer: fields[11],
        close: fields[12],
    }
}

/// An answer as it is printed.
#[derive(Drop)]
struct Printed(Result<Judgement, Refusal>);

impl fmt::Display for Printed {
    fn fmt<W: fmt::Write>(&self, f: &mut fmt::Formatter<W>) -> fmt::Result {
        let judgement = match self.0 {
            Ok(judgement) => judgement,
            Err(refusal) => return write!(f, "refused {refusal}"),
        };
        match judgement.verdict {
            Ok(()) => write!(f, "pass")?,
            Err(refusal) => write!(f, "{refusal}")?,
        }
        match judgement.basis {
            Basis::Quote => write!(f, ", no reference: quote"),
            Basis::Exempt(exemption) => write!(f, ", no reference: {exemption}"),
            Basis::NoReference => write!(f, ", no reference"),
            Basis::Against {
                reference,
                distance,
            } => write!(f, ", reference {}, distance {distance}", reference.number()),
        }
    }
}

/// What was expected where a line goes wrong.
#[derive(Drop)]
struct Complaint {
    line: u64,
    fault: Fault,
}

fn field_name(field: usize) -> &'static str {
    FIELDS.get(field).copied().unwrap_or("no field")
}

impl fmt::Display for Complaint {
    fn fmt<W: fmt::Write>(&self, f: &mut fmt::Formatter<W>) -> fmt::Result {
        let line = self.line;
        match self.fault {
            Fault::Missing { field } => write!(
                f,
                "line {line}: expected {}, and the line ends",
                field_name(field)
            ),
            Fault::NotNumber { field } => write!(
                f,
                "line {line}: expected {}, a number",
                field_name(field)
            ),
            Fault::Extra { .. } => write!(
                f,
                "line {line}: expected the end of the line after CLOSE"
            ),
        }
    }
}

/// Prints the words of a line with single spaces.
fn echo(rt: &HostRuntime, line: &[u8]) -> anyhow::Result<()> {
    let mut out = Vec::new(rt.alloc());
    for word in Reader::new(line) {
        out.extend_from_slice(word)?;
        out.push(b' ')?;
    }
    rt.write_all(out.as_slice())?;
    Ok(())
}

/// Answers a question; a line with no word is passed over.
fn answer_line(rt: &HostRuntime, at: u64, line: &[u8]) -> anyhow::Result<()> {
    if Reader::new(line).next().is_none() {
        return Ok(());
    }
    let fields = numbers::<13>(&mut Reader::new(line)).map_err(|fault| anyhow!(Complaint {
        line: at,
        fault
    }))?;
    echo(rt, line)?;
    println!(rt;
        "-> {}",
        Printed(judge_price(request_in(&fields), conditions_in(&fields)))
    )?;
    Ok(())
}

/// Answers every line of the input up to the first fault, and says in which line that is.
pub fn price_desk(rt: &HostRuntime) -> anyhow::Result<()> {
    let mut input = BufReader::new(rt.alloc(), rt.stdin())?;
    let mut line = Vec::new(rt.alloc());
    for at in 1..u64::MAX {
        line.clear();
        if input.read_until(b'\n', &mut line)? == 0 {
            break;
        }
        if line.last().copied() == Some(b'\n') {
            let _ = line.pop();
        }
        answer_line(rt, at, line.as_slice())?;
    }
    Ok(())
}
