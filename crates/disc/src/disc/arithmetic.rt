//! The operations on discs.
ghost use Rattle.std.specs.Prelude.{◌≡◌, ◌+◌, ◌^◌, ◌<◌, ◌*ℤ◌, pos, refl};
ghost use Rattle.exact.specs.Numbers.{ExactField, add, multiply, nought, subtract};
ghost use Rattle.enclosure.specs.Discs.{DiscsEnclose, Holds, U, ball, difference, discs, down, one, origin, product, reciprocal, scaled, spread, sum, touches, up};
ghost use Rattle.enclosure.specs.Arithmetic.{quotient};
ghost use Rattle.enclosure.specs.Holding.{HoldsEach, HoldsInverses, HoldsQuotients, TouchIfCommon};
ghost use Rattle.enclosure.specs.Fitted.{answer};
ghost use Rattle.enclosure.proofs.Enclosing.{zero_held};
ghost use Rattle.enclosure.proofs.Fitting.{fitted_encloses};
ghost use Rattle.disc.specs.Meaning.{Has, disc, disc_arithmetic, meaning};

use super::{Disc, LIMIT, ONE};
use enclosure::{Enclosure, Refusal};

/// One in units, squared.
const ONE_SQUARED: u64 = 1 << 48;

/// The radius of a product.
fn product_radius(a: Disc, b: Disc) -> u64
    ensures { result ≡ up (spread (meaning a) (meaning b)) U + 2 }
{
    let spread = a.reach(b) + b.reach(a) + a.radius * b.radius;
    spread.div_ceil(ONE.unsigned_abs()) + 2
}

/// In units of 2^-24 again, rounded down, below zero too.
// of 64 bits, as its radius: one function with `floor_by` would be of 128, and products would
// convert in and out
fn floor_units(z: i64) -> i64
    ensures { result ≡ down z U }
{
    z.div_euclid(ONE)
}

/// `z` times 2^48 by `e`, rounded down, below zero too.
fn floor_by(z: i64, e: u64) -> i128
    requires positive { 0 < e }
    ensures { result ≡ down (z *ℤ pos (2 ^ 48)) e }
{
    (i128::from(z) * i128::from(ONE_SQUARED)).div_euclid(i128::from(e))
}

impl Disc {
    /// A result of an operation; refused where it is off scale.
    #[tactic(auto, unfolding(enclosure::specs::Discs::ranged))]
    pub(super) fn on_scale(re: i64, im: i64, radius: u64) -> Result<Disc, Refusal>
        ensures { answer meaning result ≡ scaled (ball re im radius) }
    {
        if re.unsigned_abs() > LIMIT || im.unsigned_abs() > LIMIT || radius > LIMIT {
            return Err(Refusal::OffScale);
        }
        Ok(Disc { re, im, radius })
    }

    /// The quotient: the disc times the reciprocal of `b`.
    // as `over` of any values, whose contract is about any arithmetic; this one is about the numbers
    pub fn over(self, b: Disc) -> Result<Disc, Refusal>
        ensures value { answer meaning result ≡ quotient discs (meaning self) (meaning b) }
        ensures encloses { HoldsQuotients Has self b result }
        ensures fitted { result ≡ quotient disc_arithmetic self b }
    {
        Enclosure::over(self, b)
    }
}

impl Enclosure for Disc {
    ghost holds = { λ d. Holds (meaning d) };

    ghost origin = { disc origin refl };

    ghost arithmetic = { disc_arithmetic };

    ghost encloses = { fitted_encloses meaning disc (λ b h. refl) };

    ghost zero_held = { zero_held };

    fn zero() -> Disc
        ensures value { meaning result ≡ origin }
        ensures holds { Has result nought }
    {
        Disc {
            re: 0,
            im: 0,
            radius: 0,
        }
    }

    #[tactic(auto, using(exact::proofs::Numbers::exact_field, enclosure::proofs::Enclosing::discs_enclose))]
    fn one() -> Disc
        ensures value { meaning result ≡ one }
        ensures laws { ExactField × DiscsEnclose }
    {
        let zero = Disc::zero();
        Disc {
            re: ONE,
            im: zero.im,
            radius: zero.radius,
        }
    }

    fn plus(self, b: Disc) -> Result<Disc, Refusal>
        ensures value { answer meaning result ≡ sum (meaning self) (meaning b) }
        ensures encloses { HoldsEach Has add self b result }
        ensures fitted { result ≡ disc_arithmetic.plus self b }
    {
        Disc::on_scale(self.re + b.re, self.im + b.im, self.radius + b.radius)
    }

    // written out beside `plus`: as the sum with the negative it is no shorter
    fn minus(self, b: Disc) -> Result<Disc, Refusal>
        ensures value { answer meaning result ≡ difference (meaning self) (meaning b) }
        ensures encloses { HoldsEach Has subtract self b result }
        ensures fitted { result ≡ disc_arithmetic.minus self b }
    {
        Disc::on_scale(self.re - b.re, self.im - b.im, self.radius + b.radius)
    }

    fn times(self, b: Disc) -> Result<Disc, Refusal>
        ensures value { answer meaning result ≡ product (meaning self) (meaning b) }
        ensures encloses { HoldsEach Has multiply self b result }
        ensures fitted { result ≡ disc_arithmetic.times self b }
    {
        let re = floor_units(self.re * b.re - self.im * b.im);
        let im = floor_units(self.re * b.im + self.im * b.re);
        Disc::on_scale(re, im, product_radius(self, b))
    }

    fn reciprocal(self) -> Result<Disc, Refusal>
        ensures value { answer meaning result ≡ reciprocal (meaning self) }
        ensures encloses { HoldsInverses Has self result }
        ensures fitted { result ≡ disc_arithmetic.reciprocal self }
    {
        let s = self.square();
        let t = self.radius * self.radius;
        if s <= t {
            return Err(Refusal::ZeroDivisor);
        }
        let e = s - t;
        let re = floor_by(self.re, e);
        let im = floor_by(-self.im, e);
        let radius = (u128::from(self.radius) * u128::from(ONE_SQUARED)).div_ceil(u128::from(e))
            + 2;
        // what does not fit is off scale
        let re = i64::try_from(re).map_err(|_| Refusal::OffScale)?;
        let im = i64::try_from(im).map_err(|_| Refusal::OffScale)?;
        let radius = u64::try_from(radius).map_err(|_| Refusal::OffScale)?;
        Disc::on_scale(re, im, radius)
    }

    fn touches(self, b: Disc) -> bool
        ensures value { result ≡ touches (meaning self) (meaning b) }
        ensures encloses { TouchIfCommon Has self b result }
    {
        let x = self.re.abs_diff(b.re);
        let y = self.im.abs_diff(b.im);
        let r = self.radius + b.radius;
        x * x + y * y <= r * r
    }
}
