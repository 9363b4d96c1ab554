//! Discs as plain numbers, to compare them with figures.
use disc::{Disc, OutOfRange, PlainDisc};
use one_port::Sol;

/// One, in units.
pub(crate) const U: i64 = 1 << 24;

/// The limit of parts and radius, in units.
pub(crate) const L: i64 = 1 << 30;

/// Re, im and radius.
// a tuple, not a `PlainDisc`, so that a row of a table is one line
pub(crate) type Numbers = (i64, i64, i64);

/// Short, open and load.
pub(crate) type Three = [Numbers; 3];

/// What an ideal kit lists.
pub(crate) const IDEAL: Three = [(-U, 0, 0), (U, 0, 0), (0, 0, 0)];

pub(crate) fn disc((re, im, radius): Numbers) -> Result<Disc, OutOfRange> {
    Disc::try_from(PlainDisc { re, im, radius })
}

// for each struct of discs a function like this one: a trait for all would need an impl for each
pub(crate) fn sol(numbers: Three) -> Result<Sol<Disc>, OutOfRange> {
    let [short, open, load] = numbers.try_map(disc)?;
    Ok(Sol { short, open, load })
}

pub(crate) fn numbers(disc: Disc) -> Numbers {
    let plain = PlainDisc::from(disc);
    (plain.re, plain.im, plain.radius)
}
