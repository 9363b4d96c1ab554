//! Solves one port with ideal standards and exact ideal readings, then embeds and corrects one
//! value, and prints the terms and both answers: name, re, im and radius in units of 2^-24.
#![tactic(auto)]

use disc::{Disc, OutOfRange, PlainDisc};
use one_port::{Sol, ThreeTerms};

/// One, in units.
const ONE: i64 = 1 << 24;

/// A number of units, exactly.
fn real(units: i64) -> Result<Disc, OutOfRange> {
    Disc::try_from(PlainDisc {
        re: units,
        im: 0,
        radius: 0,
    })
}

/// Short, open and load as an ideal kit lists them.
fn ideal() -> Result<Sol<Disc>, OutOfRange> {
    Ok(Sol {
        short: real(-ONE)?,
        open: real(ONE)?,
        load: real(0)?,
    })
}

fn print(rt: &impl Print, name: &str, disc: Disc) -> anyhow::Result<()> {
    println!(rt; "{name} {}", PlainDisc::from(disc))?;
    Ok(())
}

fn run(rt: &impl Print) -> anyhow::Result<()> {
    let standards = ideal()?;
    let terms = ThreeTerms::solve(standards, standards)?;
    let half = real(ONE / 2)?;
    print(rt, "ED", terms.ed)?;
    print(rt, "ES", terms.es)?;
    print(rt, "ER", terms.er)?;
    print(rt, "RAW", terms.embed(half)?)?;
    print(rt, "DUT", terms.correct(half)?)
}

fn main(rt: HostRuntime) -> anyhow::Result<()> {
    run(&rt)
}
