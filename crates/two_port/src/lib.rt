//! Two ports at one frequency by the 12-term error model: terms from shorts, opens, loads and a
//! thru, raw values to actual ones, and back.
//!
//! Every answer is what docs/equations.md works out, unit for unit, and holds the truth.
#![tactic(auto)]

mod correct;
mod embed;
mod parameters;
mod solve;
mod thru;

use one_port::Sol;
pub use parameters::SParameters;

/// The error terms of one direction.
// six in a row, as the model lists them: `forward.reflection.ed` would say no more than `forward.ed`
#[derive(Clone, Copy, PartialEq, Eq, Debug)]
pub struct Direction<A> {
    /// Directivity.
    pub ed: A,
    /// Source match.
    pub es: A,
    /// Reflection tracking.
    pub er: A,
    /// Leakage.
    pub ex: A,
    /// Load match.
    pub el: A,
    /// Transmission tracking.
    pub et: A,
}

/// The error terms of two ports.
#[derive(Clone, Copy, PartialEq, Eq, Debug)]
pub struct TwelveTerms<A> {
    /// Driven at port 1.
    pub forward: Direction<A>,
    /// Driven at port 2.
    pub reverse: Direction<A>,
}

/// What the standards are listed as.
#[derive(Clone, Copy, PartialEq, Eq, Debug)]
pub struct Standards<A> {
    pub port1: Sol<A>,
    pub port2: Sol<A>,
    pub thru: SParameters<A>,
}

/// The readings of the leakage; one that was not taken is `None`.
#[derive(Clone, Copy, PartialEq, Eq, Debug)]
pub struct Isolation<A> {
    pub forward: Option<A>,
    pub reverse: Option<A>,
}

/// What was read of the standards.
// the fields of `Standards` again, so that a reading has the name of what it is of
#[derive(Clone, Copy, PartialEq, Eq, Debug)]
pub struct Readings<A> {
    pub port1: Sol<A>,
    pub port2: Sol<A>,
    pub thru: SParameters<A>,
    pub isolation: Isolation<A>,
}
