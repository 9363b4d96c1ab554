//! What a value to calculate with is.
ghost use Rattle.std.specs.Prelude.{◌≡◌};
ghost use Rattle.exact.specs.Numbers.{Exact, exacts, invert, nought};
ghost use Rattle.enclosure.specs.Arithmetic.{Arithmetic, Encloses, quotient};
ghost use Rattle.enclosure.specs.Holding.{HoldsQuotients};

use crate::refusal::Refusal;

/// A value that holds exact numbers, to calculate with by operations that may be refused.
pub trait Enclosure: Copy {
    /// What each operation answers.
    ghost arithmetic: { Arithmetic Self };

    /// What `zero` answers.
    ghost origin: { Self };

    /// Which numbers a value holds.
    ghost holds: { Self → Exact → Type 0 };

    /// Zero: it holds the number zero, by a law below.
    fn zero() -> Self
        ensures { result ≡ origin };

    /// One: it holds the number one, by the laws below.
    fn one() -> Self
        ensures { result ≡ arithmetic.unit };

    /// The sum.
    fn plus(self, b: Self) -> Result<Self, Refusal>
        ensures { result ≡ arithmetic.plus self b };

    /// The difference.
    fn minus(self, b: Self) -> Result<Self, Refusal>
        ensures { result ≡ arithmetic.minus self b };

    /// The product.
    fn times(self, b: Self) -> Result<Self, Refusal>
        ensures { result ≡ arithmetic.times self b };

    /// One by the value; refused where it may be zero.
    fn reciprocal(self) -> Result<Self, Refusal>
        ensures { result ≡ arithmetic.reciprocal self };

    /// Whether the two may hold a common number.
    fn touches(self, b: Self) -> bool
        ensures { result ≡ arithmetic.touches self b };

    // The laws, which each type has to prove; they stand below the operations that they speak of.

    /// What an operation answers holds what comes out for any numbers that its operands hold.
    ghost encloses: { Encloses arithmetic exacts invert holds };

    /// Zero holds the number zero.
    ghost zero_held: { holds origin nought };

    /// The quotient: the value times the reciprocal of `b`.
    #[tactic(auto, using(crate::proofs::Keeping::quotient_kept))]
    final fn over(self, b: Self) -> Result<Self, Refusal>
        ensures value { result ≡ quotient arithmetic self b }
        ensures encloses { HoldsQuotients holds self b result }
    {
        let inverse = b.reciprocal()?;
        self.times(inverse)
    }
}
