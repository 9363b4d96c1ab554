//! From standards to terms.
ghost use Rattle.std.specs.Prelude.{◌≡◌, IfOk};
ghost use Rattle.exact.specs.Numbers.{exacts, invert};
ghost use Rattle.one_port.specs.Equations.{solved};
ghost use Rattle.one_port.specs.Parts.{differenced, divided, finished};
ghost use Rattle.one_port.specs.Truth.{TermsTrue};

use crate::{Sol, ThreeTerms};
use enclosure::{Enclosure, Refusal};

/// P3, and the differences of products, listed values and readings from the load's.
// under the names that the equations give them, of the short and of the open
#[derive(Clone, Copy)]
struct Differences<A> {
    p3: A,
    a1: A,
    a2: A,
    b1: A,
    b2: A,
    c1: A,
    c2: A,
}

/// The quotients by V: ES, and z, which is ER - ED ES.
#[derive(Clone, Copy)]
struct Quotients<A> {
    es: A,
    z: A,
}

fn difference<A: Enclosure>(listed: Sol<A>, read: Sol<A>) -> Result<Differences<A>, Refusal>
    ensures { result ≡ differenced A.arithmetic listed read }
{
    let p1 = listed.short.times(read.short)?;
    let p2 = listed.open.times(read.open)?;
    let p3 = listed.load.times(read.load)?;
    let a1 = p1.minus(p3)?;
    let a2 = p2.minus(p3)?;
    let b1 = listed.short.minus(listed.load)?;
    let b2 = listed.open.minus(listed.load)?;
    let c1 = read.short.minus(read.load)?;
    let c2 = read.open.minus(read.load)?;
    Ok(Differences {
        p3,
        a1,
        a2,
        b1,
        b2,
        c1,
        c2,
    })
}

fn divide<A: Enclosure>(d: Differences<A>) -> Result<Quotients<A>, Refusal>
    ensures { result ≡ divided A.arithmetic d }
{
    // each line is an equation: a function of the four factors would hide which are meant
    let v = d.a1.times(d.b2)?.minus(d.a2.times(d.b1)?)?;
    let es = d.c1.times(d.b2)?.minus(d.c2.times(d.b1)?)?.over(v)?;
    let z = d.a1.times(d.c2)?.minus(d.a2.times(d.c1)?)?.over(v)?;
    Ok(Quotients { es, z })
}

fn finish<A: Enclosure>(
    listed: A,
    read: A,
    p3: A,
    q: Quotients<A>,
) -> Result<ThreeTerms<A>, Refusal>
    ensures { result ≡ finished A.arithmetic listed read p3 q }
{
    let x = p3.times(q.es)?;
    let y = listed.times(q.z)?;
    let ed = read.minus(x)?.minus(y)?;
    let er = q.z.plus(ed.times(q.es)?)?;
    Ok(ThreeTerms { ed, es: q.es, er })
}

impl<A: Enclosure> ThreeTerms<A> {
    /// The terms, from what the standards are listed as and what was read of them.
    // no struct of the two: each caller would make it, and the first line would take it apart
    pub fn solve(listed: Sol<A>, read: Sol<A>) -> Result<ThreeTerms<A>, Refusal>
        ensures value { result ≡ solved A.arithmetic listed read }
        ensures truth { IfOk result (TermsTrue A.arithmetic exacts invert A.holds listed read) }
    {
        let d = difference(listed, read)?;
        let q = divide(d)?;
        finish(listed.load, read.load, d.p3, q)
    }
}
