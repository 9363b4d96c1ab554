//! The size of a disc's centre.
ghost use Rattle.std.specs.Prelude.{◌≡◌, ◌*◌, ◌^◌, ◌≤◌};
ghost use Rattle.enclosure.specs.Discs.{LeastRoot, size, square};
ghost use Rattle.disc.specs.Meaning.{meaning};

use super::Disc;

impl Disc {
    /// The square of the distance of the centre from zero.
    pub(super) fn square(self) -> u64
        ensures value { result ≡ square (meaning self) }
        ensures bound { result ≤ 2 ^ 61 }
    {
        let x = self.re.unsigned_abs();
        let y = self.im.unsigned_abs();
        x * x + y * y
    }

    /// The least whole number of units that is no less than the distance of the centre from zero.
    #[tactic(auto, using(enclosure::proofs::Rounding::root_above, enclosure::proofs::Rounding::root_exact, enclosure::proofs::Rounding::root_is_least))]
    pub fn size(self) -> u64
        ensures value { result ≡ size (meaning self) }
        ensures least { LeastRoot (square (meaning self)) result }
        ensures bound { result ≤ 2 ^ 31 }
    {
        let s = self.square();
        let n = s.isqrt();
        if n * n < s { n + 1 } else { n }
    }

    /// The size times the radius of `b`; no root is worked out for a radius of zero.
    pub(super) fn reach(self, b: Disc) -> u64
        ensures value { result ≡ size (meaning self) * b.radius }
        ensures bound { result ≤ 2 ^ 61 }
    {
        if b.radius == 0 {
            0
        } else {
            self.size() * b.radius
        }
    }
}
