//! Stages 3 and 4: the terms of a direction from the reading of a thru.
ghost use Rattle.std.specs.Prelude.{◌≡◌};
ghost use Rattle.two_port.specs.Equations as Model;
ghost use Rattle.two_port.specs.Formulas.{residual_of};

use crate::{Direction, SParameters};
use enclosure::{Enclosure, Refusal};
use one_port::ThreeTerms;

/// m (x - ES y) - ER y, which is zero where m + ED is the raw value of y/x.
fn residual<A: Enclosure>(t: ThreeTerms<A>, m: A, x: A, y: A) -> Result<A, Refusal>
    ensures { result ≡ residual_of A.arithmetic t m x y }
{
    // as the formula stands: a function of the four factors would hide which are meant
    let b = x.minus(t.es.times(y)?)?;
    let p = m.times(b)?;
    let q = t.er.times(y)?;
    p.minus(q)
}

/// The direction that drives port 1 of the thru; leakage is zero where no isolation reading was
/// taken, and for discs exactly so.
pub(super) fn directed<A: Enclosure>(
    t: ThreeTerms<A>,
    isolation: Option<A>,
    thru: SParameters<A>,
    read: SParameters<A>,
) -> Result<Direction<A>, Refusal>
    ensures { result ≡ Model.directed A.arithmetic t (Model.leakage A.origin isolation) thru read }
{
    let ex = isolation.unwrap_or(A::zero());
    let k = thru.determinant()?;
    let m = read.s11.minus(t.ed)?;
    let n = residual(t, m, A::one(), thru.s11)?;
    let d = residual(t, m, thru.s22, k)?;
    let el = n.over(d)?;
    let w = thru.loops(t.es, el, k)?;
    let et = read.s21.minus(ex)?.times(w)?.over(thru.s21)?;
    Ok(Direction {
        ed: t.ed,
        es: t.es,
        er: t.er,
        ex,
        el,
        et,
    })
}
