//! What callers may do with discs and with what holds them. Proved, and run by no test; where there
//! is no contract, that such code gets a proof is all that is meant.
ghost use Rattle.std.specs.Prelude.{◌≡◌, ◌+◌, ◌^◌, ◌≤◌, unsigned_abs};
ghost use Rattle.disc.specs.Meaning.{disc_arithmetic};
ghost use Rattle.one_port.specs.Equations as OnePort;
ghost use Rattle.tests.specs.Trips as Trips;

use disc::{Disc, PlainDisc};
use enclosure::{Enclosure, Refusal};
use one_port::{Sol, ThreeTerms};
use stage::StageRefusal;
use two_port::{SParameters, TwelveTerms};

/// The terms are used twice.
fn there_and_back(terms: ThreeTerms<Disc>, device: Disc) -> Result<Disc, Refusal>
    ensures { result ≡ Trips.there_and_back disc_arithmetic terms device }
{
    let raw = terms.embed(device)?;
    terms.correct(raw)
}

/// And those of two ports.
fn there_and_back_of_two(
    terms: TwelveTerms<Disc>,
    device: SParameters<Disc>,
) -> Result<SParameters<Disc>, StageRefusal>
    ensures { result ≡ Trips.there_and_back_of_two disc_arithmetic terms device }
{
    let raws = terms.embed(device)?;
    terms.correct(raws)
}

/// Exact readings of ideal standards are the standards.
fn of_ideal(standards: Sol<Disc>) -> Result<ThreeTerms<Disc>, Refusal>
    ensures { result ≡ OnePort.solved disc_arithmetic standards standards }
{
    ThreeTerms::solve(standards, standards)
}

/// The terms are used at each value of a slice.
fn widest(terms: ThreeTerms<Disc>, raws: &[Disc]) -> i64 {
    let mut most = 0;
    for raw in raws {
        if let Ok(device) = terms.correct(*raw) {
            let radius = PlainDisc::from(device).radius;
            if radius > most {
                most = radius;
            }
        }
    }
    most
}

/// An optional reading is used twice.
fn both_or_zero(reading: Option<Disc>) -> (Disc, Disc) {
    (
        reading.unwrap_or(Disc::zero()),
        reading.unwrap_or(Disc::zero()),
    )
}

/// The range of lent discs is known.
fn radii(a: &Disc, b: &Disc) -> i64
    ensures { unsigned_abs result ≤ 2 ^ 31 }
{
    PlainDisc::from(*a).radius + PlainDisc::from(*b).radius
}

/// And of those in a slice.
fn next_radius(discs: &[Disc], i: usize) -> i64
    ensures { unsigned_abs result ≤ 2 ^ 30 + 1 }
{
    if i < discs.len() {
        PlainDisc::from(discs[i]).radius + 1
    } else {
        0
    }
}

/// And of those in lent terms.
fn parts(terms: &ThreeTerms<Disc>) -> i64
    ensures { unsigned_abs result ≤ 2 ^ 31 }
{
    PlainDisc::from(terms.ed).re + PlainDisc::from(terms.es).re
}
