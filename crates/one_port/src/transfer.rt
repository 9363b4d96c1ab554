//! From raw to actual, and from actual to raw.
ghost use Rattle.std.specs.Prelude.{◌≡◌, IfOk};
ghost use Rattle.exact.specs.Numbers.{exacts, invert};
ghost use Rattle.one_port.specs.Equations.{corrected, embedded};
ghost use Rattle.one_port.specs.Truth.{ComesBack, DeviceTrue, RawTrue};

use crate::ThreeTerms;
use enclosure::{Enclosure, Refusal};

impl<A: Enclosure> ThreeTerms<A> {
    /// The device behind a raw value.
    pub fn correct(self, raw: A) -> Result<A, Refusal>
        ensures value { result ≡ corrected A.arithmetic self raw }
        ensures truth { IfOk result (DeviceTrue A.arithmetic exacts invert A.holds self raw) }
        ensures round_trip { IfOk result (ComesBack A.arithmetic exacts invert A.holds self raw) }
    {
        let m = raw.minus(self.ed)?;
        let d = self.er.plus(m.times(self.es)?)?;
        m.over(d)
    }

    /// The raw value of a device.
    pub fn embed(self, actual: A) -> Result<A, Refusal>
        ensures value { result ≡ embedded A.arithmetic self actual }
        ensures truth { IfOk result (RawTrue A.arithmetic exacts invert A.holds self actual) }
    {
        let n = self.er.times(actual)?;
        let d = A::one().minus(self.es.times(actual)?)?;
        self.ed.plus(n.over(d)?)
    }
}
