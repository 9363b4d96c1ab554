//! Stages 1 to 4: from standards to terms.
ghost use Rattle.std.specs.Prelude.{◌≡◌, IfOk};
ghost use Rattle.exact.specs.Numbers.{exacts, invert};
ghost use Rattle.two_port.specs.Equations.{solved};
ghost use Rattle.two_port.specs.Truth.{TermsTrue};

use crate::thru::directed;
use crate::{Readings, Standards, TwelveTerms};
use enclosure::Enclosure;
use one_port::ThreeTerms;
use stage::{Stage, StageRefusal};

impl<A: Enclosure> TwelveTerms<A> {
    /// The terms, from what the standards are listed as and what was read of them.
    // no struct of the two: each caller would make it, and the first lines would take it apart
    pub fn solve(listed: Standards<A>, read: Readings<A>) -> Result<TwelveTerms<A>, StageRefusal>
        ensures value { result ≡ solved A.arithmetic A.origin listed read }
        ensures truth { IfOk result (TermsTrue A.arithmetic exacts invert A.holds listed read) }
    {
        let port1 = Stage::Port1.note(ThreeTerms::solve(listed.port1, read.port1))?;
        let port2 = Stage::Port2.note(ThreeTerms::solve(listed.port2, read.port2))?;
        let isolation = read.isolation;
        let forward = directed(port1, isolation.forward, listed.thru, read.thru);
        let forward = Stage::ForwardThru.note(forward)?;
        let thru = listed.thru.exchanged();
        let read_thru = read.thru.exchanged();
        let reverse = directed(port2, isolation.reverse, thru, read_thru);
        let reverse = Stage::ReverseThru.note(reverse)?;
        Ok(TwelveTerms { forward, reverse })
    }
}
