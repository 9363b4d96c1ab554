//! Stage 5: from raw to actual.
ghost use Rattle.std.specs.Prelude.{◌≡◌, IfOk};
ghost use Rattle.exact.specs.Numbers.{exacts, invert};
ghost use Rattle.equations.specs.Formula.{worked};
ghost use Rattle.two_port.specs.Equations.{correct, corrected, device_in, from_raw};
ghost use Rattle.two_port.specs.Formulas.{divisor_of, normalised, reflection_of, source_loop_of, transmission_of};
ghost use Rattle.two_port.specs.Truth.{ComesBack, DeviceTrue};

use crate::{SParameters, TwelveTerms};
use enclosure::{Enclosure, Refusal};
use stage::{Stage, StageRefusal};

/// A port as the other sees it: what was read of it, normalised, and its matches, as a source and
/// as a load.
#[derive(Clone, Copy)]
struct Port<A> {
    reflected: A,
    es: A,
    el: A,
}

impl<A: Enclosure> Port<A> {
    /// 1 + b ES, where b is the reflection.
    fn source_loop(self) -> Result<A, Refusal>
        ensures { result ≡ source_loop_of A.arithmetic self }
    {
        A::one().plus(self.reflected.times(self.es)?)
    }
}

/// A raw value, less the term that adds to it and by the one that it is multiplied by: (M - E)/T.
fn normalise<A: Enclosure>(m: A, e: A, t: A) -> Result<A, Refusal>
    ensures { result ≡ normalised A.arithmetic m e t }
{
    m.minus(e)?.over(t)
}

/// D = (1 + a ESF) (1 + b ESR) - c d ELF ELR
fn divisor<A: Enclosure>(port1: Port<A>, port2: Port<A>, c: A, d: A) -> Result<A, Refusal>
    ensures { result ≡ divisor_of A.arithmetic port1 port2 c d }
{
    let p = port1.source_loop()?.times(port2.source_loop()?)?;
    let q = c.times(d)?.times(port2.el)?.times(port1.el)?;
    p.minus(q)
}

/// (a (1 + b ES) - EL c d)/D, where b, ES and EL are of the far port.
fn reflection<A: Enclosure>(a: A, far: Port<A>, c: A, d: A, by: A) -> Result<A, Refusal>
    ensures { result ≡ reflection_of A.arithmetic a far c d by }
{
    let p = a.times(far.source_loop()?)?;
    let q = far.el.times(c)?.times(d)?;
    p.minus(q)?.over(by)
}

/// (c (1 + b (ES - EL)))/D, where b, ES and EL are of the far port.
fn transmission<A: Enclosure>(c: A, far: Port<A>, by: A) -> Result<A, Refusal>
    ensures { result ≡ transmission_of A.arithmetic c far by }
{
    let e = far.es.minus(far.el)?;
    let x = A::one().plus(far.reflected.times(e)?)?;
    c.times(x)?.over(by)
}

fn raw_to_actual<A: Enclosure>(
    t: TwelveTerms<A>,
    raw: SParameters<A>,
) -> Result<SParameters<A>, Refusal>
    ensures { result ≡ worked A.arithmetic correct (from_raw t raw) device_in }
{
    let f = t.forward;
    let r = t.reverse;
    let a = normalise(raw.s11, f.ed, f.er)?;
    let b = normalise(raw.s22, r.ed, r.er)?;
    let c = normalise(raw.s21, f.ex, f.et)?;
    let d = normalise(raw.s12, r.ex, r.et)?;
    let port1 = Port {
        reflected: a,
        es: f.es,
        el: r.el,
    };
    let port2 = Port {
        reflected: b,
        es: r.es,
        el: f.el,
    };
    let by = divisor(port1, port2, c, d)?;
    let s11 = reflection(a, port2, c, d, by)?;
    let s21 = transmission(c, port2, by)?;
    let s12 = transmission(d, port1, by)?;
    let s22 = reflection(b, port1, c, d, by)?;
    Ok(SParameters { s11, s21, s12, s22 })
}

impl<A: Enclosure> TwelveTerms<A> {
    /// The device behind raw values.
    pub fn correct(self, raw: SParameters<A>) -> Result<SParameters<A>, StageRefusal>
        ensures value { result ≡ corrected A.arithmetic self raw }
        ensures truth { IfOk result (DeviceTrue A.arithmetic exacts invert A.holds self raw) }
        ensures round_trip { IfOk result (ComesBack A.arithmetic exacts invert A.holds self raw) }
    {
        Stage::Correct.note(raw_to_actual(self, raw))
    }
}
