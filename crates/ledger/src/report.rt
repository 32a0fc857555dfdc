//! The lines of the hand-over: which logins stand how, and what a firm's contracts came to.

ghost use Rattle.std.specs.Prelude.{◌≡◌, Some};
ghost use Rattle.std.specs.Fmt.{WritesOnOk};
ghost use Rattle.std.specs.List.{list_any};
ghost use Rattle.ledger.specs.Report.{word_of, is_among, firm_of, entry_text, listed, logins_text, firm_text};

use crate::sums::Sums;
use std::fmt;

/// How a login stands: it may be given out, or it is a firm's.
#[derive(Clone, Copy, Debug, PartialEq, Eq)]
pub enum Standing {
    Free,
    Open { acronym: u64 },
    Leaving { acronym: u64 },
}

/// Which logins a line lists.
#[derive(Clone, Copy, Debug, PartialEq, Eq)]
pub enum Listing {
    Free,
    Open,
    Leaving,
}

impl fmt::Display for Listing {
    ghost output = { λ x. Some (word_of x) };

    fn fmt<W: fmt::Write>(&self, f: &mut fmt::Formatter<W>) -> fmt::Result {
        f.write_str(match *self {
            Listing::Free => "free",
            Listing::Open => "open",
            Listing::Leaving => "leaving",
        })
    }
}

impl Standing {
    /// Whether a login that stands so is listed.
    fn is_among(self, listing: Listing) -> bool
        ensures { result ≡ is_among listing self }
    {
        matches!(
            (listing, self),
            (Listing::Free, Standing::Free)
                | (Listing::Open, Standing::Open { .. })
                | (Listing::Leaving, Standing::Leaving { .. })
        )
    }

    /// The firm that an open or a leaving login is listed with.
    fn acronym(self) -> Option<u64>
        ensures { result ≡ firm_of self }
    {
        match self {
            Standing::Free => None,
            Standing::Open { acronym } | Standing::Leaving { acronym } => Some(acronym),
        }
    }
}

/// A login that is listed, after a space, with its firm if it is one's.
#[derive(Clone, Copy)]
struct Entry {
    login: usize,
    acronym: Option<u64>,
}

impl fmt::Display for Entry {
    ghost output = { λ x. Some (entry_text x.login x.acronym) };

    fn fmt<W: fmt::Write>(&self, f: &mut fmt::Formatter<W>) -> fmt::Result {
        let login = self.login;
        match self.acronym {
            None => write!(f, " {login}"),
            Some(acronym) => write!(f, " {login} (acronym {acronym})"),
        }
    }
}

/// Whether a login is listed.
fn any_among(listing: Listing, standings: &[Standing]) -> bool
    ensures { result ≡ list_any (is_among listing) standings.now }
{
    standings.iter().any(|standing| standing.is_among(listing))
}

/// Writes the logins that are listed; the first of the slice is login 1.
fn write_listed<W: fmt::Write>(
    listing: Listing,
    standings: &[Standing],
    f: &mut fmt::Formatter<W>,
) -> fmt::Result
    ensures { WritesOnOk W.Write.write_str_gives f.old result (listed listing 1 standings.now) f.new }
{
    for (place, standing) in standings.iter().enumerate() {
        if standing.is_among(listing) {
            let entry = Entry {
                login: place + 1,
                acronym: standing.acronym(),
            };
            write!(f, "{entry}")?;
        }
    }
    Ok(())
}

/// The logins of one standing, in a line.
#[derive(Clone, Copy)]
pub struct Logins<'a> {
    pub listing: Listing,
    pub standings: &'a [Standing],
}

impl fmt::Display for Logins<'_> {
    ghost output = { λ x. Some (logins_text x.listing x.standings.now) };

    fn fmt<W: fmt::Write>(&self, f: &mut fmt::Formatter<W>) -> fmt::Result {
        let Logins { listing, standings } = *self;
        write!(f, "{listing}:")?;
        if any_among(listing, standings) {
            write_listed(listing, standings, f)
        } else {
            write!(f, " none")
        }
    }
}

/// What a firm's contracts came to, in a line.
#[derive(Clone, Copy)]
pub struct FirmLine {
    pub acronym: u64,
    pub sums: Sums,
}

impl fmt::Display for FirmLine {
    ghost output = { λ x. Some (firm_text x.acronym x.sums) };

    fn fmt<W: fmt::Write>(&self, f: &mut fmt::Formatter<W>) -> fmt::Result {
        let acronym = self.acronym;
        let Sums {
            accepted,
            receipted,
            cancelled,
        } = self.sums;
        let left = self.sums.in_venue();
        write!(
            f,
            "acronym {acronym}: accepted {accepted}, receipted {receipted}, cancelled {cancelled}, in the venue {left}"
        )
    }
}
