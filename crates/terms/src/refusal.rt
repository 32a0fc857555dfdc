//! Why a call is refused, with the number and the word that the venue knows it by.

ghost use Rattle.std.specs.Prelude.{◌≡◌, Some};
ghost use Rattle.terms.specs.Refusals.{number as number_of, word as word_of, ReadsRefusal, refusal_of, refusal_text};

use std::fmt;

#[derive(Clone, Copy, Debug, PartialEq, Eq)]
pub enum Refusal {
    Field = 1,
    ShortTable = 2,
    NotEmpty = 3,
    NotOpen = 11,
    Taken = 12,
    Leaving = 13,
    ClockBack = 14,
    NoOrder = 15,
    NoSlip = 16,
    SlipOut = 17,
    WrongSlip = 18,
    NoValues = 19,
    Held = 21,
    InUse = 31,
    Allotment = 32,
    SlipsFull = 33,
    TooLarge = 41,
    PutAndCall = 42,
    LimitPrice = 43,
}

/// A number that no refusal has.
#[derive(Clone, Copy, Debug, PartialEq, Eq)]
pub struct UnknownNumber(pub u8);

impl Refusal {
    const ALL: [Refusal; 19] = [
        Refusal::Field,
        Refusal::ShortTable,
        Refusal::NotEmpty,
        Refusal::NotOpen,
        Refusal::Taken,
        Refusal::Leaving,
        Refusal::ClockBack,
        Refusal::NoOrder,
        Refusal::NoSlip,
        Refusal::SlipOut,
        Refusal::WrongSlip,
        Refusal::NoValues,
        Refusal::Held,
        Refusal::InUse,
        Refusal::Allotment,
        Refusal::SlipsFull,
        Refusal::TooLarge,
        Refusal::PutAndCall,
        Refusal::LimitPrice,
    ];

    /// The one that has this number.
    fn numbered(number: u8) -> Option<Refusal>
        ensures { result ≡ refusal_of number }
    {
        Refusal::ALL
            .iter()
            .copied()
            .find(|refusal| refusal.number() == number)
    }

    pub fn number(self) -> u8
        ensures { result ≡ number_of self }
    {
        self as u8
    }

    pub fn word(self) -> &'static str
        ensures { result.now ≡ word_of self }
    {
        match self {
            Refusal::Field => "field",
            Refusal::ShortTable => "short table",
            Refusal::NotEmpty => "not empty",
            Refusal::NotOpen => "not open",
            Refusal::Taken => "taken",
            Refusal::Leaving => "leaving",
            Refusal::ClockBack => "clock back",
            Refusal::NoOrder => "no order",
            Refusal::NoSlip => "no slip",
            Refusal::SlipOut => "slip out",
            Refusal::WrongSlip => "wrong slip",
            Refusal::NoValues => "no values",
            Refusal::Held => "held",
            Refusal::InUse => "in use",
            Refusal::Allotment => "allotment",
            Refusal::SlipsFull => "slips full",
            Refusal::TooLarge => "too large",
            Refusal::PutAndCall => "put and call",
            Refusal::LimitPrice => "price",
        }
    }
}

impl TryFrom<u8> for Refusal {
    type Error = UnknownNumber;

    ghost try_from_gives = { ReadsRefusal };

    fn try_from(number: u8) -> Result<Refusal, UnknownNumber> {
        Refusal::numbered(number).ok_or(UnknownNumber(number))
    }
}

/// The number and the word in brackets.
impl fmt::Display for Refusal {
    ghost output = { λ x. Some (refusal_text x) };

    fn fmt<W: fmt::Write>(&self, f: &mut fmt::Formatter<W>) -> fmt::Result {
        write!(f, "{} ({})", self.number(), self.word())
    }
}
