//! Limit price: an order must not be priced too far through the market.

ghost use Rattle.std.specs.Prelude.{◌≡◌, ℕ, ◌≤◌, true, Some, None, slice_index};
ghost use Rattle.terms.specs.declared.kinds.Kind.TheVariants.{Quote};
ghost use Rattle.terms.specs.Refusals.{answer};
ghost use Rattle.checks.specs.LimitPrice.{exemption_word, crossed as crossed_by, facing as facing_of, own as own_of, usable as usable_by, clear_close, reference as reference_for, exemption as exemption_of, band as band_of, distances, distance as distance_for, Scaled, basis, allowed, limit_price, Edges};

use std::fmt;
use terms::{BidOffer, Class, Conditions, Kind, Phase, Price, Refusal, Request, Role, Side};

/// Why an order is not held to a reference.
#[derive(Clone, Copy, Debug, PartialEq, Eq)]
pub enum Exemption {
    Stop,
    Sweep,
    MarketMaker,
}

impl fmt::Display for Exemption {
    ghost output = { λ x. Some (exemption_word x) };

    fn fmt<W: fmt::Write>(&self, f: &mut fmt::Formatter<W>) -> fmt::Result {
        f.write_str(match *self {
            Exemption::Stop => "stop order",
            Exemption::Sweep => "intermarket sweep",
            Exemption::MarketMaker => "market-maker",
        })
    }
}

/// What a request is judged by.
#[derive(Clone, Copy, Debug, PartialEq, Eq)]
pub enum Basis {
    Quote,
    Exempt(Exemption),
    NoReference,
    Against { reference: Price, distance: u32 },
}

/// Cents, by class and by the band that the reference lies in.
const DISTANCES: [[u32; 6]; 4] = [
    [15, 25, 50, 80, 120, 200],
    [4, 8, 20, 40, 80, 150],
    [30, 50, 100, 160, 240, 400],
    [2, 4, 10, 20, 40, 80],
];

/// Whether both sides are there with the bid at or above the offer.
fn crossed(quotation: &BidOffer) -> bool
    ensures { result ≡ crossed_by quotation.now }
{
    quotation
        .bid
        .zip(quotation.offer)
        .is_some_and(|(bid, offer)| bid >= offer)
}

/// What an order would trade with: for a buy the offer, for a sell the bid.
fn facing(side: Side, quotation: &BidOffer) -> Option<Price>
    ensures { result ≡ facing_of side quotation.now }
{
    match side {
        Side::Buy => quotation.offer,
        Side::Sell => quotation.bid,
    }
}

/// The other side: for a buy the bid, for a sell the offer.
fn own(side: Side, quotation: &BidOffer) -> Option<Price>
    ensures { result ≡ own_of side quotation.now }
{
    facing(side.other(), quotation)
}

/// Whether the national best bid and offer count.
pub fn usable(conditions: &Conditions) -> bool
    ensures { result ≡ usable_by conditions.now }
{
    conditions.flag && !crossed(&conditions.national)
}

/// What a buy or a sell is held against, before any exemption.
pub fn reference(side: Side, conditions: &Conditions) -> Option<Price>
    ensures { result ≡ reference_for side conditions.now }
{
    let counts = usable(conditions);
    if counts && let Some(price) = facing(side, &conditions.national) {
        return Some(price);
    }
    match conditions.phase {
        Phase::BeforeOpening if counts => clear_close(
            side,
            own(side, &conditions.national),
            conditions.close,
        ),
        Phase::BeforeOpening => conditions.close,
        Phase::Open => facing(side, &conditions.venue),
        Phase::Halt => None,
    }
}

/// The close, unless it lies through the price of the order's own side.
fn clear_close(side: Side, own: Option<Price>, close: Option<Price>) -> Option<Price>
    ensures { result ≡ clear_close side own close }
{
    let Some(own) = own else {
        return close;
    };
    close.filter(|&close| match side {
        Side::Buy => close >= own,
        Side::Sell => close <= own,
    })
}

/// Why a request is not held to a reference in a phase, if it is not.
pub fn exemption_of(request: &Request, phase: Phase) -> Option<Exemption>
    ensures { result ≡ exemption_of request.now phase }
{
    if request.marks.stop {
        return Some(Exemption::Stop);
    }
    match (phase, request.role) {
        (Phase::BeforeOpening | Phase::Halt, _) if request.marks.sweep => Some(Exemption::Sweep),
        (Phase::BeforeOpening, Role::MarketMaker) => Some(Exemption::MarketMaker),
        _ => None,
    }
}

/// The band that a price lies in, from 0.
fn band(price: u32) -> usize
    ensures place { result ≡ band_of price }
    ensures bound { result ≤ 5 }
{
    match price {
        0..=99 => 0,
        100..=299 => 1,
        300..=999 => 2,
        1_000..=2_999 => 3,
        3_000..=9_999 => 4,
        _ => 5,
    }
}

/// The entry of the table for a class and a band.
fn tabled(class: Class, band: usize) -> u32
    requires { band ≤ 5 }
    ensures { result ≡ slice_index (distances class) band }
{
    DISTANCES[class as usize][band]
}

/// How many cents an order may be priced through a reference.
#[tactic(auto, using(crate::proofs::Distances::scaled))]
pub fn distance(class: Class, reference: Price) -> u32
    ensures value { result ≡ distance_for class reference.value }
    ensures bound { result ≤ 400 }
    ensures scaled { Scaled class reference.value result }
{
    tabled(class, band(reference.number()))
}

/// What a request is judged by; a quote by nothing.
pub fn basis_of(request: &Request, conditions: &Conditions) -> Basis
    ensures value { result ≡ basis request.now conditions.now }
    ensures bound { allowed result ≤ 400 }
{
    if request.kind == Kind::Quote {
        return Basis::Quote;
    }
    if let Some(exemption) = exemption_of(request, conditions.phase) {
        return Basis::Exempt(exemption);
    }
    match reference(request.side, conditions) {
        None => Basis::NoReference,
        Some(reference) => Basis::Against {
            reference,
            distance: distance(conditions.class, reference),
        },
    }
}

/// Turns down an order that is priced past the distance from its reference.
pub fn limit_price(request: &Request, conditions: &Conditions) -> Result<(), Refusal>
    ensures value { result ≡ limit_price request.now conditions.now }
    ensures edges { Edges request.now conditions.now result }
    ensures free { reference_for request.now.side conditions.now ≡ None → answer result ≡ 0 }
    ensures stops { request.now.marks.stop ≡ true → answer result ≡ 0 }
    ensures quotes { request.now.kind ≡ Quote → answer result ≡ 0 }
{
    let Basis::Against {
        reference,
        distance,
    } = basis_of(request, conditions)
    else {
        return Ok(());
    };
    let price = request.price.number();
    let past = match request.side {
        Side::Buy => price > reference.number() + distance,
        Side::Sell => price + distance < reference.number(),
    };
    if past {
        Err(Refusal::LimitPrice)
    } else {
        Ok(())
    }
}
