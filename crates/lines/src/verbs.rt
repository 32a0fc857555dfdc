//! The words that calls begin with, and those of scopes.

ghost use Rattle.std.specs.Prelude.{◌≡◌};
ghost use Rattle.lines.specs.Verbs.{word_of, verb_of, scope_word, scope_of, scoped};

use terms::ScopeNumber;

/// Which call a line asks for.
#[derive(Clone, Copy, Debug, PartialEq, Eq)]
pub enum Verb {
    Tick,
    Values,
    Open,
    Retire,
    Limit,
    Enter,
    Cancel,
    Strike,
    Take,
    Receipt,
    PutBack,
    Kill,
    Release,
}

impl Verb {
    const ALL: [Verb; 13] = [
        Verb::Tick,
        Verb::Values,
        Verb::Open,
        Verb::Retire,
        Verb::Limit,
        Verb::Enter,
        Verb::Cancel,
        Verb::Strike,
        Verb::Take,
        Verb::Receipt,
        Verb::PutBack,
        Verb::Kill,
        Verb::Release,
    ];

    /// The word of a call.
    pub(crate) fn word(self) -> &'static str
        ensures { result.now ≡ word_of self }
    {
        match self {
            Verb::Tick => "tick",
            Verb::Values => "values",
            Verb::Open => "open",
            Verb::Retire => "retire",
            Verb::Limit => "limit",
            Verb::Enter => "enter",
            Verb::Cancel => "cancel",
            Verb::Strike => "strike",
            Verb::Take => "take",
            Verb::Receipt => "receipt",
            Verb::PutBack => "putback",
            Verb::Kill => "kill",
            Verb::Release => "release",
        }
    }

    /// The call that a word names, if it is one's.
    pub(crate) fn named(word: &[u8]) -> Option<Verb>
        ensures { result ≡ verb_of word.now }
    {
        Verb::ALL
            .iter()
            .copied()
            .find(|verb| word == verb.word().as_bytes())
    }
}

/// Whether a number names a login or an acronym.
#[derive(Clone, Copy, Debug, PartialEq, Eq)]
pub(crate) enum ScopeWord {
    Login,
    Acronym,
}

impl ScopeWord {
    const ALL: [ScopeWord; 2] = [ScopeWord::Login, ScopeWord::Acronym];

    fn word(self) -> &'static str
        ensures { result.now ≡ scope_word self }
    {
        match self {
            ScopeWord::Login => "login",
            ScopeWord::Acronym => "acronym",
        }
    }

    /// The scope that a word names, if it is one's.
    // The look-up of `Verb` again: a trait for the two would be longer than both.
    pub(crate) fn named(word: &[u8]) -> Option<ScopeWord>
        ensures { result ≡ scope_of word.now }
    {
        ScopeWord::ALL
            .iter()
            .copied()
            .find(|scope| word == scope.word().as_bytes())
    }

    /// The login or the acronym of a number.
    pub(crate) fn of(self, number: u64) -> ScopeNumber
        ensures { result ≡ scoped self number }
    {
        match self {
            ScopeWord::Login => ScopeNumber::Login(number),
            ScopeWord::Acronym => ScopeNumber::Acronym(number),
        }
    }
}
