//! The price desk: a question in plain numbers, and what limit price makes of it.

ghost use Rattle.std.specs.Prelude.{◌≡◌};
ghost use Rattle.terms.specs.Ranges.{or_field};
ghost use Rattle.checks.specs.Desk.{judgement};

use crate::pricing::{Basis, basis_of, limit_price};
use terms::{ConditionNumbers, Conditions, Refusal, Request, RequestNumbers};

/// What a request was judged by, and how.
#[derive(Clone, Copy, Debug, PartialEq, Eq)]
pub struct Judgement {
    pub basis: Basis,
    pub verdict: Result<(), Refusal>,
}

/// Refuses a field that is out of its range, and else judges the request.
pub fn judge_price(
    request: RequestNumbers,
    conditions: ConditionNumbers,
) -> Result<Judgement, Refusal>
    ensures { result ≡ or_field (judgement request conditions) }
{
    let request = Request::try_from(request)?;
    let conditions = Conditions::try_from(conditions)?;
    let basis = basis_of(&request, &conditions);
    let verdict = limit_price(&request, &conditions);
    Ok(Judgement { basis, verdict })
}
