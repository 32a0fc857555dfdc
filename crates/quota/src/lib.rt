//! An example of a check of one's own: each firm may have so many entries accepted, and no more.

#![tactic(auto)]

ghost use Rattle.std.specs.Prelude.{◌≡◌, length, replicate};
ghost use Rattle.quota.specs.Quotas.{left_after, quota, quota_lawful};

use checks::{Check, NO_CAUSE, acronym_of, put_at, read_at};
use terms::{Asked, Causes, Notice, TurnDown};

#[cfg(test)]
mod tests;

/// 45 for an entry of a firm that has none left of the entries it may have accepted.
#[derive(Drop)]
pub struct Quota {
    most: u64,
    left: [u64; 8],
    ghost eight: { length left ≡ 8 },
}

// What an acronym has left after a notice that names it.
fn left_after(notice: &Notice, left: u64) -> u64
    ensures { result ≡ left_after notice.now left }
{
    match notice {
        Notice::Entered { .. } => left.saturating_sub(1),
        _ => left,
    }
}

impl Quota {
    /// `most` entries for each firm.
    pub fn new(most: u64) -> Quota
        ensures most { result.most ≡ most }
        ensures left { result.left ≡ replicate 8 most }
    {
        Quota {
            most,
            left: [most; 8],
        }
    }
}

impl Check for Quota {
    ghost meaning = { quota };

    ghost public = { λ s. s.most };

    ghost private = { λ s. s.left };

    ghost lawful = { quota_lawful };

    ghost eight = { λ s. s.eight };

    fn judge(&self, asked: Asked) -> Result<(), TurnDown> {
        if read_at(&self.left, asked.acronym, self.most) == 0 {
            return Err(TurnDown::try_from(45).unwrap());
        }
        Ok(())
    }

    #[tactic(auto, using(crate::proofs::Left::left_told, checks::proofs::Told::same_either))]
    fn tell(&mut self, notice: Notice) -> Causes {
        let acronym = acronym_of(&notice);
        let left = read_at(&self.left, acronym, self.most);
        put_at(&mut self.left, acronym, left_after(&notice, left));
        NO_CAUSE
    }

    fn renew(&mut self) {
        self.left = [self.most; 8];
    }
}
