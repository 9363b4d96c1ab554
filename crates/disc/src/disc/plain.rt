//! A disc as it lies in lists, rows and slates.
ghost use Rattle.std.specs.Prelude.{◌≡◌};
ghost use Rattle.enclosure.specs.Fitted.{answer};
ghost use Rattle.disc.specs.Meaning.{meaning};
ghost use Rattle.disc.specs.Plain.{made, plain};

use super::Disc;
use std::fmt;
use thiserror::Error;

/// Three plain numbers of units, which may be a disc or not: `Disc::try_from` says.
// a type beside `Disc`, which no numbers out of range can have
#[derive(Clone, Copy, PartialEq, Eq, Debug)]
pub struct PlainDisc {
    pub re: i64,
    pub im: i64,
    pub radius: i64,
}

/// Three plain numbers that are no disc: the refusal of number 1.
#[derive(Clone, Copy, PartialEq, Eq, Debug, Error)]
#[error("refused by {}: not a disc", u8::from(*self))]
pub struct OutOfRange;

impl TryFrom<PlainDisc> for Disc {
    type Error = OutOfRange;

    ghost try_from_gives = { λ numbers result. answer meaning result ≡ made numbers };

    /// The disc of three plain numbers, if they are one.
    #[tactic(auto, using(std::proofs::lemmas::Grind::common_steps), unfolding(enclosure::specs::Discs::ranged))]
    fn try_from(numbers: PlainDisc) -> Result<Disc, OutOfRange> {
        let radius = u64::try_from(numbers.radius).map_err(|_| OutOfRange)?;
        Disc::on_scale(numbers.re, numbers.im, radius).map_err(|_| OutOfRange)
    }
}

impl From<OutOfRange> for u8 {
    ghost from_gives = { λ _ number. number ≡ 1 };

    /// The number of the refusal.
    fn from(_: OutOfRange) -> u8 {
        1
    }
}

impl From<Disc> for PlainDisc {
    ghost from_gives = { λ disc numbers. numbers ≡ plain (meaning disc) };

    /// The numbers of the disc.
    fn from(disc: Disc) -> PlainDisc {
        PlainDisc {
            re: disc.re,
            im: disc.im,
            radius: disc.radius.cast_signed(),
        }
    }
}

/// `re im radius`
// no derive prints the bare numbers
impl fmt::Display for PlainDisc {
    fn fmt<W: fmt::Write>(&self, f: &mut fmt::Formatter<W>) -> fmt::Result {
        write!(f, "{} {} {}", self.re, self.im, self.radius)
    }
}
