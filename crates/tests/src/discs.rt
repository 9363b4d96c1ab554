//! Discs against figures worked by an independent calculation in whole numbers, and at the edges.
use crate::plain::{L, Numbers, U, disc, numbers};
use disc::OutOfRange;
use enclosure::Refusal::{OffScale, ZeroDivisor};
use enclosure::{Enclosure, Refusal};
use std::test::Fail;

/// What an operation answers.
type Answer = Result<Numbers, Refusal>;

/// Plain numbers that are a disc.
const DISCS: [Numbers; 4] = [(L, L, L), (-L, -L, 0), (0, 0, L), (0, 0, 0)];

/// And such as are none.
const NO_DISCS: [Numbers; 10] = [
    (L + 1, 0, 0),
    (-L - 1, 0, 0),
    (0, L + 1, 0),
    (0, -L - 1, 0),
    (0, 0, L + 1),
    (0, 0, -1),
    (i64::MIN, 0, 0),
    (0, i64::MAX, 0),
    (0, 0, i64::MIN),
    (0, 0, i64::MAX),
];

#[test]
fn plain_numbers(rt: HostRuntime) {
    for plain in DISCS {
        assert_eq!(rt; disc(plain).map(numbers), Ok(plain));
    }
    for plain in NO_DISCS {
        assert_eq!(rt; disc(plain), Err(OutOfRange));
    }
}

const SUMS: [(Numbers, Numbers, Answer, Answer); 7] = [
    (
        (1, -2, 3),
        (10, 20, 30),
        Ok((11, 18, 33)),
        Ok((-9, -22, 33)),
    ),
    ((L, -L, 0), (0, 0, L), Ok((L, -L, L)), Ok((L, -L, L))),
    ((L, 0, 0), (1, 0, 0), Err(OffScale), Ok((L - 1, 0, 0))),
    ((L, 0, 0), (-1, 0, 0), Ok((L - 1, 0, 0)), Err(OffScale)),
    ((0, -L, 0), (0, 1, 0), Ok((0, 1 - L, 0)), Err(OffScale)),
    ((0, 0, L), (0, 0, 1), Err(OffScale), Err(OffScale)),
    ((-L, -L, L), (-L, -L, L), Err(OffScale), Err(OffScale)),
];

#[test]
fn sums_and_differences(rt: HostRuntime) -> Result<(), Fail> {
    for (a, b, sum, difference) in SUMS {
        let a = disc(a)?;
        let b = disc(b)?;
        assert_eq!(rt; a.plus(b).map(numbers), sum);
        assert_eq!(rt; a.minus(b).map(numbers), difference);
    }
    Ok(())
}

const PRODUCTS: [(Numbers, Numbers, Answer); 22] = [
    (
        (48_312_022, -58_631_026, 5_924),
        (3_309, -1_221, 1),
        Ok((5_261, -15_080, 8)),
    ),
    (
        (8_608_056, 9_169_153, 3),
        (870_616, -14_610_527, 2_166_900),
        Ok((8_431_700, -7_020_559, 1_624_371)),
    ),
    ((1, -5, 1), (2_865, -288, 4), Ok((0, -1, 3))),
    (
        (-1_300, 1_683, 1),
        (471_411_261, 499_431_933, 0),
        Ok((-86_629, 8_590, 43)),
    ),
    ((-18_719_644, 7_665_411, 41_672), (4, -3, 1), Ok((-4, 5, 4))),
    (
        (-43_716_603, 27_771_031, 0),
        (1_625, 2_824, 2),
        Ok((-8_909, -4_669, 9)),
    ),
    (
        (42_352_511, -37_045_909, 0),
        (-168, -3_801, 1_279),
        Ok((-8_818, -9_225, 4_292)),
    ),
    (
        (-13_156_452, 14_231_926, 15_364),
        (-9_599_603, 14_611_806, 3_072_882),
        Ok((-4_867_162, -19_601_606, 3_568_692)),
    ),
    (
        (1_015_801_301, 302_347_604, 539_725),
        (63_470_085, 20_454_647, 13_575_826),
        Err(OffScale),
    ),
    (
        (965_505_183, -1_070_545_812, 2),
        (-21_454_470, 42_195_225, 33_342),
        Err(OffScale),
    ),
    ((-L, -L, L), (-L, -L, L), Err(OffScale)),
    ((-U, 0, 0), (1, 0, 0), Ok((-1, 0, 2))),
    ((-1, 0, 0), (U, 0, 0), Ok((-1, 0, 2))),
    ((-1, 0, 0), (16_777_215, 0, 0), Ok((-1, 0, 2))),
    ((3, 0, 0), (-5, 0, 0), Ok((-1, 0, 2))),
    ((L, 0, 0), (U, 0, 0), Ok((L, 0, 2))),
    ((L, 0, 0), (16_777_217, 0, 0), Err(OffScale)),
    ((0, 0, L), (0, 0, 16_769_024), Ok((0, 0, 1_073_217_538))),
    ((0, 0, L), (U, 0, 0), Err(OffScale)),
    ((L, L, 0), (0, 0, 1), Ok((0, 0, 93))),
    ((0, -1, 0), (0, 1, 0), Ok((0, 0, 2))),
    ((0, 1, 0), (0, 1, 0), Ok((-1, 0, 2))),
];

#[test]
fn products(rt: HostRuntime) -> Result<(), Fail> {
    for (a, b, answer) in PRODUCTS {
        let a = disc(a)?;
        let b = disc(b)?;
        assert_eq!(rt; a.times(b).map(numbers), answer);
        assert_eq!(rt; b.times(a).map(numbers), answer);
    }
    Ok(())
}

const RECIPROCALS: [(Numbers, Answer); 23] = [
    ((-647_783_525, -998_467_301, 0), Ok((-128_717, 198_398, 2))),
    (
        (-894_898_072, 139_701_201, 826_943),
        Ok((-307_051, -47_934, 286)),
    ),
    (
        (-918_365_097, 45_283_342, 188_839_453),
        Ok((-319_217, -15_741, 65_642)),
    ),
    ((9_872_851, -7_030_378, 0), Ok((18_917_439, 13_470_956, 2))),
    (
        (223_715, -241_850, 11_865),
        Ok((580_910_783, 628_001_130, 30_809_320)),
    ),
    ((592_969_391, 38_242_871, 0), Ok((472_720, -30_488, 2))),
    ((-1, -1, 0), Err(OffScale)),
    ((2, 0, 0), Err(OffScale)),
    ((1, 0, 0), Err(OffScale)),
    ((1, 5, 5), Err(OffScale)),
    ((3, 4, 5), Err(ZeroDivisor)),
    ((0, 0, 0), Err(ZeroDivisor)),
    ((0, 0, L), Err(ZeroDivisor)),
    ((-L, -L, L), Ok((-262_144, 262_144, 262_146))),
    ((L, 0, L), Err(ZeroDivisor)),
    ((L, 1, L), Err(OffScale)),
    ((-L, 0, 0), Ok((-262_144, 0, 2))),
    ((0, L, 0), Ok((0, -262_144, 2))),
    ((0, -262_144, 0), Ok((0, L, 2))),
    ((262_144, 0, 1), Ok((L, 0, 4_099))),
    ((U, 0, 16_777_215), Err(OffScale)),
    ((-U, 0, 0), Ok((-U, 0, 2))),
    ((0, 50_331_648, 0), Ok((0, -5_592_406, 2))),
];

#[test]
fn reciprocals(rt: HostRuntime) -> Result<(), Fail> {
    for (a, answer) in RECIPROCALS {
        assert_eq!(rt; disc(a)?.reciprocal().map(numbers), answer);
    }
    Ok(())
}

/// A quotient takes the cause of its reciprocal before that of its product.
const QUOTIENTS: [(Numbers, Numbers, Answer); 4] = [
    ((U, 0, 0), (33_554_432, 0, 0), Ok((8_388_608, 0, 4))),
    ((L, L, L), (0, 0, 0), Err(ZeroDivisor)),
    ((L, 0, 0), (8_388_608, 0, 0), Err(OffScale)),
    ((0, 0, 0), (1, 0, 0), Err(OffScale)),
];

#[test]
fn quotients(rt: HostRuntime) -> Result<(), Fail> {
    for (a, b, answer) in QUOTIENTS {
        assert_eq!(rt; disc(a)?.over(disc(b)?).map(numbers), answer);
    }
    Ok(())
}

const SIZES: [(Numbers, u64); 6] = [
    ((0, 0, 7), 0),
    ((-5, 12, 0), 13),
    ((0, -L, 0), 1_073_741_824),
    ((-L, -L, L), 1_518_500_250),
    ((L, 1, 0), 1_073_741_825),
    ((1, 2, 0), 3),
];

#[test]
fn sizes(rt: HostRuntime) -> Result<(), Fail> {
    for (a, size) in SIZES {
        assert_eq!(rt; disc(a)?.size(), size);
    }
    Ok(())
}

const TOUCHES: [(Numbers, Numbers, bool); 7] = [
    ((-L, -L, L), (-L, -L, L), true),
    ((-L, 0, L), (L, 0, L), true),
    ((-L, -L, L), (L, L, L), false),
    ((0, 0, 0), (0, 0, 0), true),
    ((0, 0, 0), (1, 0, 0), false),
    ((-1, 0, 1), (1, 0, 1), true),
    ((-1, 0, 1), (1, 1, 1), false),
];

#[test]
fn touching(rt: HostRuntime) -> Result<(), Fail> {
    for (a, b, touch) in TOUCHES {
        let a = disc(a)?;
        let b = disc(b)?;
        assert_eq!(rt; a.touches(b), touch);
        assert_eq!(rt; b.touches(a), touch);
    }
    Ok(())
}

#[test]
fn numbers_of_causes(rt: HostRuntime) {
    assert_eq!(rt; u8::from(OutOfRange), 1);
    assert_eq!(rt; u8::from(Refusal::ZeroDivisor), 8);
    assert_eq!(rt; u8::from(Refusal::OffScale), 9);
}
