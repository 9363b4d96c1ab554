//! Four parameters.
ghost use Rattle.std.specs.Prelude.{◌≡◌};
ghost use Rattle.two_port.specs.Equations.{exchange};
ghost use Rattle.two_port.specs.Formulas.{determinant_of, loop_of};

use enclosure::{Enclosure, Refusal};

/// The four parameters of a device, or its raw values.
#[derive(Clone, Copy, PartialEq, Eq, Debug)]
pub struct SParameters<A> {
    pub s11: A,
    pub s21: A,
    pub s12: A,
    pub s22: A,
}

impl<A: Enclosure> SParameters<A> {
    /// The same with the ports exchanged: 11 for 22, and 21 for 12.
    pub(super) fn exchanged(self) -> SParameters<A>
        ensures { result ≡ exchange self }
    {
        SParameters {
            s11: self.s22,
            s21: self.s12,
            s12: self.s21,
            s22: self.s11,
        }
    }

    /// K, the determinant.
    pub(super) fn determinant(self) -> Result<A, Refusal>
        ensures { result ≡ determinant_of A.arithmetic self }
    {
        // as the equation stands: a function of the four factors would hide which are meant
        let p = self.s11.times(self.s22)?;
        let q = self.s21.times(self.s12)?;
        p.minus(q)
    }

    /// The loops between the matches ES and EL: 1 - ES S11 - EL S22 + ES EL K.
    pub(super) fn loops(self, es: A, el: A, k: A) -> Result<A, Refusal>
        ensures { result ≡ loop_of A.arithmetic self es el k }
    {
        let x = es.times(self.s11)?;
        let y = el.times(self.s22)?;
        let z = es.times(el)?.times(k)?;
        A::one().minus(x)?.minus(y)?.plus(z)
    }
}
