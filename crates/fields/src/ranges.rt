//! Fields that are only held against their ranges.

ghost use Rattle.std.specs.Prelude.{◌≡◌};
ghost use Rattle.terms.specs.Kinds.{reach_number, flag_number};
ghost use Rattle.history.specs.Fields.{good_scope, good_values, good_limit, good_kill};
ghost use Rattle.fields.specs.Admits.{Admits, out_of_range};

use terms::{
    Interval, Limit, LimitKind, LimitNumbers, Reach, Refusal, Scope, ScopeNumber, Series,
    ValueNumbers, Values, flag,
};

/// A scope: a login from 1 to 24, or an acronym from 1 to 8.
pub fn scope_fields(scope: ScopeNumber) -> Result<(), Refusal>
    ensures { Admits (out_of_range (good_scope scope)) (λ _. Unit {0}) result }
{
    let _ = Scope::try_from(scope)?;
    Ok(())
}

/// What is known of a series from 1 to 16.
pub fn value_fields(series: u64, values: &ValueNumbers) -> Result<(), Refusal>
    ensures { Admits (out_of_range (good_values series values.now)) (λ _. Unit {0}) result }
{
    let _ = Series::try_from(series)?;
    let _ = Values::try_from(*values)?;
    Ok(())
}

/// A limit; one of size reads no interval.
pub fn limit_fields(limit: &LimitNumbers) -> Result<(), Refusal>
    ensures { Admits (out_of_range (good_limit limit.now)) (λ _. Unit {0}) result }
{
    scope_fields(limit.scope)?;
    let kind = LimitKind::try_from(limit.kind)?;
    let _ = Limit::try_from(limit.limit)?;
    if kind != LimitKind::Size {
        let _ = Interval::try_from(limit.interval)?;
    }
    Ok(())
}

/// How far a kill goes, and whether it holds.
#[derive(Clone, Copy, Debug, PartialEq, Eq)]
pub struct Kill {
    pub reach: Reach,
    pub block: bool,
}

// From numbers: in a tuple, which a `TryFrom` could take, they would lose their names.
impl Kill {
    pub fn from_numbers(scope: ScopeNumber, reach: u64, block: u64) -> Result<Kill, Refusal>
        ensures { Admits (out_of_range (good_kill scope reach block)) (λ k. (reach_number k.reach ≡ reach) × (flag_number k.block ≡ block)) result }
    {
        scope_fields(scope)?;
        let reach = Reach::try_from(reach)?;
        let block = flag(block)?;
        Ok(Kill { reach, block })
    }
}
