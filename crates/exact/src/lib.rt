//! What no program holds: commutative rings and a normaliser for their expressions, vectors of whole
//! numbers, and exact complex numbers. Everything stands in specs/ and proofs/; the crates above
//! name it in their contracts.
#![tactic(auto)]
