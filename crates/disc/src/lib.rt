//! Discs: complex numbers known to within a radius, in whole numbers of units of 2^-24.
//!
//! Every operation answers what docs/discs.md works out, unit for unit, and its answer holds what
//! comes out for any exact numbers that its operands hold.
#![tactic(auto)]

mod disc;

pub use disc::{Disc, OutOfRange, PlainDisc};
pub use enclosure::{Enclosure, Refusal};
