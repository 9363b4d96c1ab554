//! Why an operation is refused.
ghost use Rattle.std.specs.Prelude.{◌≡◌};
ghost use Rattle.enclosure.specs.Refusals.{cause};

use thiserror::Error;

/// Why an operation is refused, by the number of the cause.
#[derive(Clone, Copy, PartialEq, Eq, Debug, Error)]
pub enum Refusal {
    /// The divisor may be zero.
    #[error("refused by {}: the divisor may be zero", u8::from(*self))]
    ZeroDivisor = 8,
    /// A part or the radius of the result is larger than the limit.
    #[error("refused by {}: off scale", u8::from(*self))]
    OffScale = 9,
}

impl From<Refusal> for u8 {
    ghost from_gives = { λ refusal number. number ≡ cause refusal };

    /// The number of the cause.
    fn from(refusal: Refusal) -> u8 {
        // a match would list the numbers again
        refusal as u8
    }
}
