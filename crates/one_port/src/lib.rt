//! One port at one frequency by the 3-term error model: terms from a short, an open and a load, raw
//! values to actual ones, and back.
//!
//! Every answer is what docs/equations.md works out, unit for unit, and holds the truth.
#![tactic(auto)]

mod solve;
mod transfer;

/// One value each for the short, the open and the load.
#[derive(Clone, Copy, PartialEq, Eq, Debug)]
pub struct Sol<A> {
    pub short: A,
    pub open: A,
    pub load: A,
}

/// The error terms of one port.
#[derive(Clone, Copy, PartialEq, Eq, Debug)]
pub struct ThreeTerms<A> {
    /// Directivity.
    pub ed: A,
    /// Source match.
    pub es: A,
    /// Reflection tracking.
    pub er: A,
}
