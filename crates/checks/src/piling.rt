//! A check set before another, which is again a check.

ghost use Rattle.std.specs.Prelude.{◌≡◌};
ghost use Rattle.checks.specs.Piled.{pairs, first_causes, piled, piled_lawful, length_pairs};

use crate::checking::Check;
use terms::{Asked, Causes, Notice, TurnDown, first_cause};

/// A check set before another or before a pile of others.
#[derive(Drop)]
pub struct Pile<A, B> {
    pub first: A,
    pub rest: B,
}

// Each cause by the first that is not 0. Causes are plain numbers, as they are sent and as the meaning has them.
fn first_causes(a: Causes, b: Causes) -> Causes
    ensures { result ≡ first_causes a b }
{
    Causes {
        login: first_cause(a.login, b.login),
        acronym: first_cause(a.acronym, b.acronym),
    }
}

impl<A: Check, B: Check> Check for Pile<A, B> {
    ghost meaning = { piled A.Check.meaning B.Check.meaning };

    ghost public = { λ s. (A.Check.public s.first, B.Check.public s.rest) };

    ghost private = { λ s. pairs (A.Check.private s.first) (B.Check.private s.rest) };

    ghost lawful = { piled_lawful A.Check.lawful B.Check.lawful };

    ghost eight = { λ s. length_pairs 8 _ _ (A.Check.eight s.first) (B.Check.eight s.rest) };

    #[tactic(auto, using(crate::proofs::Pairs::judged_first, crate::proofs::Pairs::judged_rest))]
    fn judge(&self, asked: Asked) -> Result<(), TurnDown> {
        self.first.judge(asked)?;
        self.rest.judge(asked)
    }

    #[tactic(auto, using(crate::proofs::Pairs::shown_both, crate::proofs::Pairs::own_both, crate::proofs::Pairs::trips_both))]
    fn tell(&mut self, notice: Notice) -> Causes {
        let first = self.first.tell(notice);
        let rest = self.rest.tell(notice);
        first_causes(first, rest)
    }

    fn renew(&mut self) {
        self.first.renew();
        self.rest.renew();
    }
}
