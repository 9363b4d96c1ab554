//! The equations of the error models as text, worked out in any arithmetic and over exact numbers: in
//! specs/. Why an arithmetic that encloses exact numbers finds the truth by them stands in proofs/.
//! The crates `one_port` and `two_port` hold the code to them and name the laws in their contracts.
#![tactic(auto)]
