//! What a check is: what it judges, what it is told, and the records that both go by.

ghost use Rattle.std.specs.Prelude.{◌≡◌, List, length, replicate};
ghost use Rattle.terms.specs.Tables.{at};
ghost use Rattle.checks.specs.Meaning.{Meaning, Lawful, turned_down, told_public, told_each, told_causes, whose};

use terms::{Asked, Causes, Notice, TurnDown};

/// A check judges entries on their way in, and is told what happens. Its meaning is worked out on a public record and on a
/// private record for each of the eight acronyms.
pub trait Check {
    ghost meaning: { Meaning };

    ghost public: { Self → meaning.Pub };

    ghost private: { Self → List meaning.Priv };

    ghost lawful: { Lawful meaning };

    /// Passes the entry, or says the number that it is turned down with. Alters nothing.
    fn judge(&self, asked: Asked) -> Result<(), TurnDown>
        ensures { turned_down result ≡ meaning.judged asked (public self.now) (at (meaning.fresh (public self.now)) (private self.now) asked.acronym) };

    /// Brings the records up to date, and answers what trips the login and the acronym that the notice names.
    fn tell(&mut self, notice: Notice) -> Causes
        ensures shown { public self.new ≡ told_public meaning notice (public self.old) }
        ensures own { private self.new ≡ told_each meaning 1 notice (public self.old) (private self.old) }
        ensures trips { result ≡ told_causes meaning notice (public self.old) (at (meaning.fresh (public self.old)) (private self.old) (whose notice)) };

    /// The first records, as for a new gate.
    fn renew(&mut self)
        ensures shown { public self.new ≡ meaning.renewed (public self.old) }
        ensures own { private self.new ≡ replicate 8 (meaning.fresh (public self.old)) };

    // There are eight private records.
    ghost eight: { (s : Self) → length (private s) ≡ 8 };
}

/// Nothing trips. Causes are plain numbers, where 0 is no trip, as they are sent and as the meaning has them.
pub const NO_CAUSE: Causes = Causes {
    login: 0,
    acronym: 0,
};

/// The acronym that a notice names, 0 where it is everybody's. A number, since it is looked up in tables numbered from 1, where 0 reads as
/// absent: with an `Option` each who looks it up would have to say that once more.
pub fn acronym_of(notice: &Notice) -> u64
    ensures { result ≡ whose notice.now }
{
    match notice {
        Notice::Ticked { .. } | Notice::Valued { .. } => 0,
        Notice::Opened { acronym, .. }
        | Notice::Closed { acronym, .. }
        | Notice::Limited { acronym, .. }
        | Notice::Released { acronym, .. }
        | Notice::Filled { acronym, .. } => *acronym,
        Notice::Entered { asked } | Notice::TurnedDown { asked, .. } => asked.acronym,
    }
}
