//! The worked cases: what is asked, in plain numbers, and the answer that is due.

ghost use Rattle.std.specs.Prelude.{◌≡◌, List, [], ◌∷◌, Some, decimal};
ghost use Rattle.terms.specs.Values.{request as request_of, values as values_of};
ghost use Rattle.checks.specs.Desk.{judgement};
ghost use Rattle.terms.specs.declared.messages.Notice.{Notice};
ghost use Rattle.terms.specs.declared.messages.Notice.TheVariants.{Ticked, Limited};
ghost use Rattle.cases.specs.Cases.{answer_to, order as order_at, market as market_in, put as put_of, priced as priced_case, bought as bought_case, windows as windows_case, entry as entry_at, fill as fill_at, many as many_of, limit_for_firm, notice_of, answered, of_cause, answer_number, told, cause_at, cases as worked_cases, priced_answer, bought_answer, AllAsDue, AllAsDefined};
ghost use Rattle.cases.specs.Playing.{Stands, GoesOn};

use checks::{Check, judge_price, put_and_call};
use rates::Rates;
use std::fmt;
use terms::{
    Asked, ConditionNumbers, Fill, LimitNumbers, Notice, Refusal, Request, RequestNumbers,
    ScopeNumber, Ticket, ValueNumbers, Values,
};

/// What is counted: an entry that is accepted, or contracts that are filled.
#[derive(Clone, Copy, Debug, PartialEq, Eq)]
pub enum Event {
    Entry,
    Fill { contracts: u64 },
}

/// An event at a time.
#[derive(Clone, Copy, Debug, PartialEq, Eq)]
pub struct Moment {
    pub time: u64,
    pub event: Event,
}

/// So many events alike at one time.
#[derive(Clone, Copy, Debug, PartialEq, Eq)]
pub struct Burst {
    pub times: u64,
    pub moment: Moment,
}

/// What is asked, in plain numbers as they are sent.
#[derive(Clone, Copy)]
pub enum Question {
    LimitPrice {
        request: RequestNumbers,
        conditions: ConditionNumbers,
    },
    PutAndCall {
        request: RequestNumbers,
        values: ValueNumbers,
    },
    /// A limit for a firm, two bursts of its events, and one last event.
    Windows {
        limit: LimitNumbers,
        first: Burst,
        second: Burst,
        last: Moment,
    },
}

/// What comes of a case.
#[derive(Clone, Copy, Debug, PartialEq, Eq)]
pub enum Answer {
    /// Nothing is refused, and nothing trips.
    Passes,
    Refused(Refusal),
    /// The firm trips for this cause.
    Trips(u8),
}

/// A question with the answer that is due.
#[derive(Clone, Copy)]
pub struct Case {
    pub question: Question,
    pub due: Answer,
}

impl From<Result<(), Refusal>> for Answer {
    ghost from_gives = { λ r a. a ≡ answered r };

    fn from(verdict: Result<(), Refusal>) -> Answer {
        match verdict {
            Ok(()) => Answer::Passes,
            Err(refusal) => Answer::Refused(refusal),
        }
    }
}

impl Answer {
    // By the cause that a firm has, 0 for none.
    fn of_cause(cause: u8) -> Answer
        ensures { result ≡ of_cause cause }
    {
        match cause {
            0 => Answer::Passes,
            _ => Answer::Trips(cause),
        }
    }

    // Its number: 0 where nothing is refused and nothing trips.
    fn number(self) -> u8
        ensures { result ≡ answer_number self }
    {
        match self {
            Answer::Passes => 0,
            Answer::Refused(refusal) => refusal.number(),
            Answer::Trips(cause) => cause,
        }
    }
}

/// Its number.
impl fmt::Display for Answer {
    ghost output = { λ x. Some (decimal (answer_number x)) };

    fn fmt<W: fmt::Write>(&self, f: &mut fmt::Formatter<W>) -> fmt::Result {
        write!(f, "{}", self.number())
    }
}

/// An unmarked order of a member.
fn order(side: u64, price: u64) -> RequestNumbers
    ensures { result ≡ order_at side price }
{
    RequestNumbers {
        role: 1,
        side,
        kind: 1,
        marks: 0,
        price,
    }
}

/// Class 1, the flag on, no venue bid.
fn market(phase: u64, nbb: u64, nbo: u64, offer: u64, close: u64) -> ConditionNumbers
    ensures { result ≡ market_in phase nbb nbo offer close }
{
    ConditionNumbers {
        class: 1,
        phase,
        flag: 1,
        nbb,
        nbo,
        bid: 0,
        offer,
        close,
    }
}

fn put(strike: u64) -> ValueNumbers
    ensures { result ≡ put_of strike }
{
    ValueNumbers {
        option: 2,
        strike,
        conditions: market(2, 0, 0, 0, 0),
        underlying: 0,
    }
}

fn priced(side: u64, price: u64, conditions: ConditionNumbers, due: Answer) -> Case
    ensures { result ≡ priced_case side price conditions due }
{
    Case {
        question: Question::LimitPrice {
            request: order(side, price),
            conditions,
        },
        due,
    }
}

fn bought(price: u64, values: ValueNumbers, due: Answer) -> Case
    ensures { result ≡ bought_case price values due }
{
    let request = order(1, price);
    let question = Question::PutAndCall { request, values };
    Case { question, due }
}

fn limit_for_firm(kind: u64, limit: u64, interval: u64) -> LimitNumbers
    ensures { result ≡ limit_for_firm kind limit interval }
{
    LimitNumbers {
        scope: ScopeNumber::Acronym(1),
        kind,
        limit,
        interval,
    }
}

fn entry(time: u64) -> Moment
    ensures { result ≡ entry_at time }
{
    Moment {
        time,
        event: Event::Entry,
    }
}

fn fill(contracts: u64, time: u64) -> Moment
    ensures { result ≡ fill_at contracts time }
{
    Moment {
        time,
        event: Event::Fill { contracts },
    }
}

fn many(times: u64, moment: Moment) -> Burst
    ensures { result ≡ many_of times moment }
{
    Burst { times, moment }
}

fn windows(limit: LimitNumbers, first: Burst, second: Burst, last: Moment, due: Answer) -> Case
    ensures { result ≡ windows_case limit first second last due }
{
    let question = Question::Windows {
        limit,
        first,
        second,
        last,
    };
    Case { question, due }
}

/// The table, of which every case is answered as is due.
#[tactic(auto, unfolding(terms::specs::Values::bid_offer, terms::specs::Values::conditions, terms::specs::Values::request, terms::specs::Values::values))]
pub fn worked() -> [Case; 15]
    ensures table { result ≡ worked_cases }
    ensures right { AllAsDue }
    ensures defined { AllAsDefined }
{
    let passes = Answer::Passes;
    let past = Answer::Refused(Refusal::LimitPrice);
    [
        priced(1, 125, market(2, 90, 100, 0, 0), passes),
        priced(1, 126, market(2, 90, 100, 0, 0), past),
        priced(2, 80, market(2, 95, 100, 0, 0), passes),
        priced(2, 79, market(2, 95, 100, 0, 0), past),
        priced(1, 105, market(2, 100, 100, 90, 0), passes),
        priced(1, 106, market(2, 100, 100, 90, 0), past),
        priced(1, 95, market(1, 80, 0, 0, 80), passes),
        priced(1, 96, market(1, 80, 0, 0, 80), past),
        priced(1, 96, market(1, 80, 0, 0, 79), passes),
        bought(4_999, put(5_000), passes),
        bought(5_000, put(5_000), Answer::Refused(Refusal::PutAndCall)),
        windows(
            limit_for_firm(1, 3, 1_000),
            many(1, entry(0)),
            many(1, entry(500)),
            entry(1_000),
            passes,
        ),
        windows(
            limit_for_firm(1, 3, 1_000),
            many(1, entry(0)),
            many(1, entry(500)),
            entry(999),
            Answer::Trips(61),
        ),
        windows(
            limit_for_firm(1, 10, 60_000),
            many(3, entry(0)),
            many(9, entry(90_000)),
            entry(120_000),
            Answer::Trips(61),
        ),
        windows(
            limit_for_firm(2, 1_000, 60_000),
            many(1, fill(600, 0)),
            many(1, fill(500, 75_000)),
            fill(500, 120_000),
            Answer::Trips(62),
        ),
    ]
}

fn priced_answer(request: RequestNumbers, conditions: ConditionNumbers) -> Result<(), Refusal>
    ensures { result ≡ priced_answer (judgement request conditions) }
{
    let judgement = judge_price(request, conditions)?;
    judgement.verdict
}

fn bought_answer(request: RequestNumbers, values: ValueNumbers) -> Result<(), Refusal>
    ensures { result ≡ bought_answer (request_of request) (values_of values) }
{
    let request = Request::try_from(request)?;
    let values = Values::try_from(values)?;
    put_and_call(&request, &values)
}

/// To login 1 of firm 1.
impl From<Event> for Notice {
    ghost from_gives = { λ e n. n ≡ notice_of e };

    fn from(event: Event) -> Notice {
        match event {
            Event::Entry => Notice::Entered {
                asked: Asked {
                    acronym: 1,
                    role: 1,
                    ticket: Ticket {
                        login: 1,
                        number: 1,
                        series: 1,
                        side: 1,
                        kind: 1,
                        marks: 0,
                        price: 100,
                        contracts: 1,
                    },
                },
            },
            Event::Fill { contracts } => Notice::Filled {
                acronym: 1,
                fill: Fill {
                    login: 1,
                    number: 1,
                    side: 1,
                    contracts,
                    price: 100,
                },
            },
        }
    }
}

/// One notice more, and the cause that the firm has.
fn tell(rates: &mut Rates, notice: Notice) -> u8
    ensures on { GoesOn rates.old rates.new (λ ns. notice ∷ ns) }
    ensures cause { (ns : List Notice) → Stands rates.old ns → result ≡ cause_at (notice ∷ ns) }
{
    rates.tell(notice).acronym
}

fn tell_burst(rates: &mut Rates, burst: Burst)
    ensures { GoesOn rates.old rates.new (told burst) }
{
    let Moment { time, event } = burst.moment;
    let event = Notice::from(event);
    let _ = tell(rates, Notice::Ticked { time });
    for _i in 0..burst.times {
        let _ = tell(rates, event);
    }
}

/// The cause at the last event.
fn windows_answer(limit: LimitNumbers, first: Burst, second: Burst, last: Moment) -> u8
    ensures { result ≡ cause_at (notice_of last.event ∷ Ticked last.time ∷ told second (told first (Limited 1 limit ∷ []))) }
{
    let mut rates = Rates::new();
    let _ = tell(&mut rates, Notice::Limited { acronym: 1, limit });
    tell_burst(&mut rates, first);
    tell_burst(&mut rates, second);
    let _ = tell(&mut rates, Notice::Ticked { time: last.time });
    tell(&mut rates, Notice::from(last.event))
}

/// What the code answers to a question.
pub fn answer_to(question: &Question) -> Answer
    ensures { result ≡ answer_to question.now }
{
    match *question {
        Question::LimitPrice {
            request,
            conditions,
        } => Answer::from(priced_answer(request, conditions)),
        Question::PutAndCall { request, values } => Answer::from(bought_answer(request, values)),
        Question::Windows {
            limit,
            first,
            second,
            last,
        } => Answer::of_cause(windows_answer(limit, first, second, last)),
    }
}
