//! Rules that go by the values of a series, put and call and limit price, as checks.

ghost use Rattle.std.specs.Prelude.{◌≡◌, replicate, None as Absent, refl};
ghost use Rattle.checks.specs.PutAndCall.{put_and_call};
ghost use Rattle.checks.specs.Known.{Verdict, InRange, case_of, known_after, by_values, by_values_lawful, put_and_call_ranged, limit_price_of, limit_price_ranged};

use crate::checking::{Check, NO_CAUSE};
use crate::pricing::limit_price;
use crate::puts_calls::put_and_call;
use crate::tables::{put_at, read_at};
use crate::turning::turn_down;
use terms::{Asked, Causes, Notice, Refusal, Request, RequestNumbers, TurnDown, Values};

/// What is known of each series: nothing until its values come.
#[derive(Drop)]
pub struct Known {
    series: [Option<Values>; 16],
}

/// An entry with the values of its series.
#[derive(Clone, Copy, Debug, PartialEq, Eq)]
pub struct Case {
    request: Request,
    values: Values,
}

impl Known {
    fn nothing() -> Known
        ensures { result.series ≡ replicate 16 Absent }
    {
        Known { series: [None; 16] }
    }

    // What there is to judge: nothing where a field is out of its range, or the series has no values.
    fn case_of(&self, asked: &Asked) -> Option<Case>
        ensures { result ≡ case_of asked.now self.now.series }
    {
        let request = Request::try_from(RequestNumbers::from(asked)).ok()?;
        let values = read_at(&self.series, asked.ticket.series, None)?;
        Some(Case { request, values })
    }

    fn tell(&mut self, notice: Notice)
        ensures { self.new.series ≡ known_after notice self.old.series }
    {
        if let Notice::Valued { series, values } = notice {
            put_at(&mut self.series, series, Values::try_from(values).ok());
        }
    }

    fn renew(&mut self)
        ensures { self.new.series ≡ replicate 16 Absent }
    {
        self.series = [None; 16];
    }
}

/// A rule that judges an entry by the values of its series.
pub trait Rule {
    ghost verdict: { Verdict };

    ghost ranged: { InRange verdict };

    /// Ok where the entry passes.
    fn judged(&self, request: &Request, values: &Values) -> Result<(), Refusal>
        ensures { result ≡ verdict request.now values.now };
}

/// Put and call: 42 for a buy that pays as much as the option can ever bring.
#[derive(Clone, Copy, Debug, PartialEq, Eq)]
pub struct PutAndCall;

impl Rule for PutAndCall {
    ghost verdict = { put_and_call };

    ghost ranged = { put_and_call_ranged };

    fn judged(&self, request: &Request, values: &Values) -> Result<(), Refusal> {
        put_and_call(request, values)
    }
}

/// Limit price: 43 for an order that is priced too far through its reference.
#[derive(Clone, Copy, Debug, PartialEq, Eq)]
pub struct LimitPrice;

impl Rule for LimitPrice {
    ghost verdict = { limit_price_of };

    ghost ranged = { limit_price_ranged };

    fn judged(&self, request: &Request, values: &Values) -> Result<(), Refusal> {
        limit_price(request, &values.conditions)
    }
}

/// A rule as a check: it goes by the last values of each series, and passes an entry in a series that has none.
#[derive(Drop)]
pub struct ByValues<R> {
    rule: R,
    known: Known,
}

impl<R> ByValues<R> {
    /// Knowing no series.
    pub fn new(rule: R) -> ByValues<R>
        ensures same { result.rule ≡ rule }
        ensures none { result.known.series ≡ replicate 16 Absent }
    {
        ByValues {
            rule,
            known: Known::nothing(),
        }
    }
}

impl<R: Rule> Check for ByValues<R> {
    ghost meaning = { by_values R.Rule.verdict };

    ghost public = { λ s. s.known.series };

    ghost private = { λ s. replicate 8 tt };

    ghost lawful = { by_values_lawful R.Rule.verdict R.Rule.ranged };

    ghost eight = { λ s. refl };

    fn judge(&self, asked: Asked) -> Result<(), TurnDown> {
        let Some(case) = self.known.case_of(&asked) else {
            return Ok(());
        };
        self.rule
            .judged(&case.request, &case.values)
            .map_err(turn_down)
    }

    fn tell(&mut self, notice: Notice) -> Causes {
        self.known.tell(notice);
        NO_CAUSE
    }

    fn renew(&mut self) {
        self.known.renew();
    }
}
