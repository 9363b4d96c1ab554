//! Values to calculate with: operations that may be refused, and the laws that tie them to exact
//! numbers. Discs as such values: definitions in specs/, and in proofs/ why they enclose.
#![tactic(auto)]

mod enclosure;
mod refusal;

pub use enclosure::Enclosure;
pub use refusal::Refusal;
