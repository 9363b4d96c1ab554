//! The disc and its range. The struct stands here without its methods, which are in the modules
//! below.
ghost use Rattle.std.specs.Prelude.{◌^◌, ◌≤◌, unsigned_abs};

mod arithmetic;
mod plain;
mod sizes;

pub use plain::{OutOfRange, PlainDisc};

/// A disc: the exact numbers no further than the radius from the centre, in units of 2^-24.
/// No part and no radius is larger than 2^30 units, so that no operation overflows.
// ghost fields and no model: what holds a value with a model is not copied where it is passed by
// value and used again, and behind a reference the range of such a value is not known
#[derive(Clone, Copy, PartialEq, Eq, Debug)]
pub struct Disc {
    re: i64,
    im: i64,
    radius: u64,
    ghost re_fits: { unsigned_abs re ≤ 2 ^ 30 },
    ghost im_fits: { unsigned_abs im ≤ 2 ^ 30 },
    ghost radius_fits: { radius ≤ 2 ^ 30 },
}

/// One, in units.
const ONE: i64 = 1 << 24;

/// The largest part, by its size, and the largest radius, in units.
const LIMIT: u64 = 1 << 30;
