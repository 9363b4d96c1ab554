//! One port against figures worked in exact fractions, and its refusals.
use crate::plain::{IDEAL, L, Three, U, disc, sol};
use disc::{Disc, OutOfRange};
use enclosure::Refusal;
use enclosure::Refusal::{OffScale, ZeroDivisor};
use one_port::ThreeTerms;
use std::test::Fail;

/// ED, ES and ER.
// as `sol` is: a trait for all would need an impl for each
fn three_terms(numbers: Three) -> Result<ThreeTerms<Disc>, OutOfRange> {
    let [ed, es, er] = numbers.try_map(disc)?;
    Ok(ThreeTerms { ed, es, er })
}

/// ED = 1/20 + i/50, ES = 1/10 - i/20, ER = 9/10 + i/10; a short of -99/100 + i/30, an open of
/// 97/100 - i/7 and a load of 1/200 - i/300, listed and read to within 2 units.
fn lossy() -> Result<Result<ThreeTerms<Disc>, Refusal>, OutOfRange> {
    let listed = sol([
        (-16_609_444, 559_240, 2),
        (16_273_899, -2_396_746, 2),
        (83_886, -55_925, 2),
    ])?;
    let read = sol([
        (-12_752_374, -1_373_780, 2),
        (17_077_313, -1_366_632, 2),
        (919_953, 293_539, 2),
    ])?;
    Ok(ThreeTerms::solve(listed, read))
}

#[test]
fn lossy_terms(rt: HostRuntime) -> Result<(), Fail> {
    let want = [
        (838_862, 335_545, 10),
        (1_677_721, -838_861, 17),
        (15_099_494, 1_677_720, 44),
    ];
    assert_eq!(rt; lossy()?, Ok(three_terms(want)?));
    Ok(())
}

/// A device of 1/3 + 2i/7, whose raw value was read to within 2 units.
#[test]
fn lossy_device(rt: HostRuntime) -> Result<(), Fail> {
    let terms = lossy()??;
    let raw = disc((5_555_667, 5_511_555, 2))?;
    assert_eq!(rt; terms.correct(raw), Ok(disc((5_592_403, 4_793_490, 41))?));
    Ok(())
}

#[test]
fn lossy_round_trip(rt: HostRuntime) -> Result<(), Fail> {
    let terms = lossy()??;
    let device = disc((5_592_405, 4_793_490, 2))?;
    let raw = disc((5_555_667, 5_511_553, 43))?;
    assert_eq!(rt; terms.embed(device), Ok(raw));
    assert_eq!(rt; terms.correct(raw), Ok(disc((5_592_403, 4_793_488, 87))?));
    Ok(())
}

#[test]
fn equal_readings_are_refused(rt: HostRuntime) -> Result<(), Fail> {
    let nothing = sol([(0, 0, 0), (0, 0, 0), (0, 0, 0)])?;
    assert_eq!(rt; ThreeTerms::solve(sol(IDEAL)?, nothing), Err(ZeroDivisor));
    Ok(())
}

#[test]
fn equal_readings_off_zero_are_refused(rt: HostRuntime) -> Result<(), Fail> {
    let equal = (8_388_608, -4_194_304, 3);
    let read = sol([equal, equal, equal])?;
    assert_eq!(rt; ThreeTerms::solve(sol(IDEAL)?, read), Err(ZeroDivisor));
    Ok(())
}

/// V may be zero, and the product c1 b2 above it is off scale: that comes first.
#[test]
fn dividend_before_divisor(rt: HostRuntime) -> Result<(), Fail> {
    let listed = sol([(L, 0, 0), (L, 0, 0), (0, 0, 0)])?;
    let read = sol([(0, 0, 0), (0, 0, 0), (L, 0, 0)])?;
    assert_eq!(rt; ThreeTerms::solve(listed, read), Err(OffScale));
    Ok(())
}

#[test]
fn transfers_are_refused(rt: HostRuntime) -> Result<(), Fail> {
    let wild = three_terms([(0, 0, 0), (262_144, 0, 0), (L, 0, 0)])?;
    // ER S is off scale, and 1 - ES S may be zero: the dividend comes first
    assert_eq!(rt; wild.embed(disc((L, 0, 0))?), Err(OffScale));
    let resonant = three_terms([(0, 0, 0), (U, 0, 0), (U, 0, 0)])?;
    assert_eq!(rt; resonant.embed(disc((U, 0, 0))?), Err(ZeroDivisor));
    assert_eq!(rt; resonant.correct(disc((-U, 0, 0))?), Err(ZeroDivisor));
    let shifted = three_terms([(-L, 0, 0), (0, 0, 0), (U, 0, 0)])?;
    assert_eq!(rt; shifted.correct(disc((1, 0, 0))?), Err(OffScale));
    Ok(())
}
