//! Stage 6: from actual to raw.
ghost use Rattle.std.specs.Prelude.{◌≡◌, IfOk};
ghost use Rattle.exact.specs.Numbers.{exacts, invert};
ghost use Rattle.two_port.specs.Equations as Model;
ghost use Rattle.two_port.specs.Equations.{embedded, seen_both};
ghost use Rattle.two_port.specs.Truth.{RawTrue};

use crate::{Direction, SParameters, TwelveTerms};
use enclosure::{Enclosure, Refusal};
use stage::{Stage, StageRefusal};

/// What one direction sees of a device.
#[derive(Clone, Copy)]
struct Seen<A> {
    reflected: A,
    transmitted: A,
}

/// What the direction that drives port 1 sees.
fn see<A: Enclosure>(f: Direction<A>, s: SParameters<A>) -> Result<Seen<A>, Refusal>
    ensures { result ≡ Model.seen A.arithmetic f s }
{
    let k = s.determinant()?;
    let q = s.loops(f.es, f.el, k)?;
    let x = s.s11.minus(f.el.times(k)?)?;
    let reflected = f.ed.plus(f.er.times(x)?.over(q)?)?;
    let transmitted = f.ex.plus(f.et.times(s.s21)?.over(q)?)?;
    Ok(Seen {
        reflected,
        transmitted,
    })
}

fn actual_to_raw<A: Enclosure>(
    t: TwelveTerms<A>,
    actual: SParameters<A>,
) -> Result<SParameters<A>, Refusal>
    ensures { result ≡ seen_both A.arithmetic t actual }
{
    let forward = see(t.forward, actual)?;
    let reverse = see(t.reverse, actual.exchanged())?;
    Ok(SParameters {
        s11: forward.reflected,
        s21: forward.transmitted,
        s12: reverse.transmitted,
        s22: reverse.reflected,
    })
}

impl<A: Enclosure> TwelveTerms<A> {
    /// The raw values of a device.
    pub fn embed(self, actual: SParameters<A>) -> Result<SParameters<A>, StageRefusal>
        ensures value { result ≡ embedded A.arithmetic self actual }
        ensures truth { IfOk result (RawTrue A.arithmetic exacts invert A.holds self actual) }
    {
        Stage::Embed.note(actual_to_raw(self, actual))
    }
}
