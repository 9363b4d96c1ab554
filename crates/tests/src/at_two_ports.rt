//! Two ports against figures worked in exact fractions, and the refusals of every stage.
use crate::plain::{IDEAL, L, Numbers, Three, U, disc, sol};
use disc::{Disc, OutOfRange};
use enclosure::Refusal;
use enclosure::Refusal::{OffScale, ZeroDivisor};
use stage::{Stage, StageRefusal};
use std::test::Fail;
use two_port::{Direction, Isolation, Readings, SParameters, Standards, TwelveTerms};

/// 11, 21, 12 and 22.
type Four = [Numbers; 4];

/// ED, ES, ER, EX, EL and ET.
type Six = [Numbers; 6];

const ZERO: Numbers = (0, 0, 0);

const QUARTER: Numbers = (4_194_304, 0, 0);

const HALF: Numbers = (8_388_608, 0, 0);

const ONE: Numbers = (U, 0, 0);

const MOST: Numbers = (L, 0, 0);

const LEAST: Numbers = (-L, 0, 0);

// as `sol` is, this and the next: a trait for all would need an impl for each
fn four(numbers: Four) -> Result<SParameters<Disc>, OutOfRange> {
    let [s11, s21, s12, s22] = numbers.try_map(disc)?;
    Ok(SParameters { s11, s21, s12, s22 })
}

fn direction(numbers: Six) -> Result<Direction<Disc>, OutOfRange> {
    let [ed, es, er, ex, el, et] = numbers.try_map(disc)?;
    Ok(Direction {
        ed,
        es,
        er,
        ex,
        el,
        et,
    })
}

fn twelve(forward: Six, reverse: Six) -> Result<TwelveTerms<Disc>, OutOfRange> {
    Ok(TwelveTerms {
        forward: direction(forward)?,
        reverse: direction(reverse)?,
    })
}

fn standards(port1: Three, port2: Three, thru: Four) -> Result<Standards<Disc>, OutOfRange> {
    Ok(Standards {
        port1: sol(port1)?,
        port2: sol(port2)?,
        thru: four(thru)?,
    })
}

/// Solves from what is listed, what was read of it, and the isolation readings.
fn solve(
    listed: Standards<Disc>,
    read: Standards<Disc>,
    isolation: Isolation<Numbers>,
) -> Result<Result<TwelveTerms<Disc>, StageRefusal>, OutOfRange> {
    let isolation = Isolation {
        forward: isolation.forward.map(disc).transpose()?,
        reverse: isolation.reverse.map(disc).transpose()?,
    };
    let read = Readings {
        port1: read.port1,
        port2: read.port2,
        thru: read.thru,
        isolation,
    };
    Ok(TwelveTerms::solve(listed, read))
}

const NO_ISOLATION: Isolation<Numbers> = Isolation {
    forward: None,
    reverse: None,
};

const FLUSH: Four = [ZERO, ONE, ONE, ZERO];

/// Identity error boxes and a flush thru: a device comes back as itself.
#[test]
fn ideal_device(rt: HostRuntime) -> Result<(), Fail> {
    let ideal = standards(IDEAL, IDEAL, FLUSH)?;
    let terms = solve(ideal, ideal, NO_ISOLATION)??;
    let both = [
        (0, 0, 5),
        (0, 0, 5),
        (16_777_216, 0, 24),
        (0, 0, 0),
        (0, 0, 13),
        (16_777_216, 0, 17),
    ];
    assert_eq!(rt; terms, twelve(both, both)?);
    let device = four([
        (8_388_608, 0, 0),
        (0, 4_194_304, 0),
        (0, -4_194_304, 0),
        (-2_097_152, 2_097_152, 0),
    ])?;
    let want = four([
        (8_388_608, 0, 40),
        (0, 4_194_304, 18),
        (0, -4_194_304, 20),
        (-2_097_152, 2_097_152, 25),
    ])?;
    assert_eq!(rt; terms.correct(device), Ok(want));
    let want = four([
        (8_388_608, 0, 35),
        (0, 4_194_304, 14),
        (0, -4_194_304, 14),
        (-2_097_152, 2_097_152, 22),
    ])?;
    assert_eq!(rt; terms.embed(device), Ok(want));
    Ok(())
}

/// A lossy, mismatched analyser: EDF = 1/20 + i/50, ESF = 1/10 - i/20, ERF = 9/10 + i/10,
/// EXF = 1/1000 - i/2000, ELF = -3/40 + i/25, ETF = 17/20 - i/5; EDR = -1/25 + 3i/100,
/// ESR = 2/25 + 3i/50, ERR = 19/20 - i/20, EXR = -1/2000 + i/800, ELR = 1/16 - 3i/80,
/// ETR = 4/5 + 3i/10. Its standards: at port 1 -99/100 + i/30, 97/100 - i/7 and 1/200 - i/300, at
/// port 2 -49/50 - i/40, 24/25 + i/9 and -1/150 + i/250, and a thru of 1/40 - i/60, 9/10 - 2i/5
/// both ways and -1/50 + i/70. They are listed to within 2 units.
const PORT1: Three = [
    (-16_609_444, 559_241, 2),
    (16_273_900, -2_396_745, 2),
    (83_886, -55_924, 2),
];

const PORT2: Three = [
    (-16_441_672, -419_430, 2),
    (16_106_127, 1_864_135, 2),
    (-111_848, 67_109, 2),
];

const THRU: Four = [
    (419_430, -279_620, 2),
    (15_099_494, -6_710_886, 2),
    (15_099_494, -6_710_886, 2),
    (-335_544, 239_675, 2),
];

/// What is read of them, to within 2 units.
const READ1: Three = [
    (-12_752_373, -1_373_780, 2),
    (17_077_313, -1_366_632, 2),
    (919_953, 293_540, 2),
];

const READ2: Three = [
    (-15_126_490, 1_712_819, 2),
    (15_725_915, 2_714_215, 2),
    (-773_904, 572_617, 2),
];

const READ_THRU: Four = [
    (804_627, 1_305_594, 2),
    (11_599_235, -8_723_845, 2),
    (14_130_932, -917_168, 2),
    (-825_613, -372_429, 2),
];

const ISOLATION: Isolation<Numbers> = Isolation {
    forward: Some((16_777, -8_389, 2)),
    reverse: Some((-8_389, 20_972, 2)),
};

fn lossy(
    read_thru: Four,
    isolation: Isolation<Numbers>,
) -> Result<Result<TwelveTerms<Disc>, StageRefusal>, OutOfRange> {
    let listed = standards(PORT1, PORT2, THRU)?;
    let read = standards(READ1, READ2, read_thru)?;
    solve(listed, read, isolation)
}

#[test]
fn lossy_twelve_terms(rt: HostRuntime) -> Result<(), Fail> {
    let terms = lossy(READ_THRU, ISOLATION)??;
    let forward = [
        (838_862, 335_545, 10),
        (1_677_721, -838_862, 17),
        (15_099_493, 1_677_721, 44),
        (16_777, -8_389, 2),
        (-1_258_291, 671_087, 32),
        (14_260_634, -3_355_443, 27),
    ];
    let reverse = [
        (-671_088, 503_318, 10),
        (1_342_177, 1_006_633, 16),
        (15_938_353, -838_861, 43),
        (-8_389, 20_972, 2),
        (1_048_577, -629_147, 29),
        (13_421_774, 5_033_163, 27),
    ];
    assert_eq!(rt; terms, twelve(forward, reverse)?);
    Ok(())
}

/// A device of 1/3 + 2i/7, 1/2 - 3i/8, 1/5 + i/6 and -1/4 + i/9, whose raw values were read to
/// within 2 units.
#[test]
fn lossy_two_port(rt: HostRuntime) -> Result<(), Fail> {
    let terms = lossy(READ_THRU, ISOLATION)??;
    let raw = four([
        (5_332_904, 5_585_467, 2),
        (6_228_031, -7_512_631, 2),
        (1_850_631, 3_286_534, 2),
        (-4_291_318, 2_358_299, 2),
    ])?;
    let want = four([
        (5_592_403, 4_793_490, 71),
        (8_388_604, -6_291_458, 65),
        (3_355_441, 2_796_200, 35),
        (-4_194_305, 1_864_133, 55),
    ])?;
    assert_eq!(rt; terms.correct(raw), Ok(want));
    Ok(())
}

#[test]
fn lossy_two_port_round_trip(rt: HostRuntime) -> Result<(), Fail> {
    let terms = lossy(READ_THRU, ISOLATION)??;
    let device = four([
        (5_592_405, 4_793_490, 2),
        (8_388_608, -6_291_456, 2),
        (3_355_443, 2_796_203, 2),
        (-4_194_304, 1_864_135, 2),
    ])?;
    let raw = terms.embed(device)?;
    let want = four([
        (5_332_903, 5_585_466, 61),
        (6_228_030, -7_512_632, 44),
        (1_850_631, 3_286_534, 22),
        (-4_291_317, 2_358_300, 46),
    ])?;
    assert_eq!(rt; raw, want);
    let want = four([
        (5_592_402, 4_793_489, 142),
        (8_388_603, -6_291_459, 122),
        (3_355_441, 2_796_200, 62),
        (-4_194_304, 1_864_135, 109),
    ])?;
    assert_eq!(rt; terms.correct(raw), Ok(want));
    Ok(())
}

/// The same analyser without leakage, and no isolation reading: leakage is exactly zero.
#[test]
fn no_isolation(rt: HostRuntime) -> Result<(), Fail> {
    let read_thru = [
        (804_627, 1_305_594, 2),
        (11_582_458, -8_715_457, 2),
        (14_139_321, -938_139, 2),
        (-825_613, -372_429, 2),
    ];
    let terms = lossy(read_thru, NO_ISOLATION)??;
    let forward = [
        (838_862, 335_545, 10),
        (1_677_721, -838_862, 17),
        (15_099_493, 1_677_721, 44),
        (0, 0, 0),
        (-1_258_291, 671_087, 32),
        (14_260_634, -3_355_444, 25),
    ];
    let reverse = [
        (-671_088, 503_318, 10),
        (1_342_177, 1_006_633, 16),
        (15_938_353, -838_861, 43),
        (0, 0, 0),
        (1_048_577, -629_147, 29),
        (13_421_774, 5_033_164, 25),
    ];
    assert_eq!(rt; terms, twelve(forward, reverse)?);
    let raw = four([
        (5_332_904, 5_585_467, 2),
        (6_211_254, -7_504_242, 2),
        (1_859_020, 3_265_563, 2),
        (-4_291_318, 2_358_299, 2),
    ])?;
    let want = four([
        (5_592_403, 4_793_490, 71),
        (8_388_605, -6_291_457, 61),
        (3_355_442, 2_796_201, 33),
        (-4_194_305, 1_864_133, 54),
    ])?;
    assert_eq!(rt; terms.correct(raw), Ok(want));
    Ok(())
}

/// Leakage and isolation in the forward direction alone.
#[test]
fn forward_isolation(rt: HostRuntime) -> Result<(), Fail> {
    let read_thru = [
        (804_627, 1_305_594, 2),
        (11_599_235, -8_723_845, 2),
        (14_139_321, -938_139, 2),
        (-825_613, -372_429, 2),
    ];
    let isolation = Isolation {
        reverse: None,
        ..ISOLATION
    };
    let terms = lossy(read_thru, isolation)??;
    let forward = [
        (838_862, 335_545, 10),
        (1_677_721, -838_862, 17),
        (15_099_493, 1_677_721, 44),
        (16_777, -8_389, 2),
        (-1_258_291, 671_087, 32),
        (14_260_634, -3_355_443, 27),
    ];
    let reverse = [
        (-671_088, 503_318, 10),
        (1_342_177, 1_006_633, 16),
        (15_938_353, -838_861, 43),
        (0, 0, 0),
        (1_048_577, -629_147, 29),
        (13_421_774, 5_033_164, 25),
    ];
    assert_eq!(rt; terms, twelve(forward, reverse)?);
    Ok(())
}

/// The refusal of a stage by its cause.
fn refused<T>(cause: Refusal, stage: Stage) -> Result<T, StageRefusal> {
    Err(StageRefusal { cause, stage })
}

const EQUAL: Three = [ZERO, ZERO, ZERO];

const LARGE: Three = [MOST, ONE, ZERO];

/// Ports 1 and 2 as listed, ports 1 and 2 as read, and how the solve is refused: the first stage
/// decides.
const REFLECTIONS: [(Three, Three, Three, Three, Refusal, Stage); 5] = [
    (IDEAL, IDEAL, EQUAL, IDEAL, ZeroDivisor, Stage::Port1),
    (LARGE, IDEAL, LARGE, IDEAL, OffScale, Stage::Port1),
    (IDEAL, IDEAL, IDEAL, EQUAL, ZeroDivisor, Stage::Port2),
    (IDEAL, LARGE, IDEAL, LARGE, OffScale, Stage::Port2),
    (IDEAL, LARGE, EQUAL, LARGE, ZeroDivisor, Stage::Port1),
];

#[test]
fn reflections_are_refused(rt: HostRuntime) -> Result<(), Fail> {
    for (port1, port2, read1, read2, cause, stage) in REFLECTIONS {
        let listed = standards(port1, port2, FLUSH)?;
        let read = standards(read1, read2, FLUSH)?;
        assert_eq!(rt; solve(listed, read, NO_ISOLATION)?, refused(cause, stage));
    }
    Ok(())
}

/// The listed thru, its reading and both isolation readings, with ideal shorts, opens and loads.
const THRUS: [(Four, Four, Isolation<Numbers>, Refusal, Stage); 6] = [
    // the divisor of ELF may be zero
    (
        [ZERO, ZERO, ONE, ZERO],
        FLUSH,
        NO_ISOLATION,
        ZeroDivisor,
        Stage::ForwardThru,
    ),
    // T21 is zero
    (
        [QUARTER, ZERO, ONE, HALF],
        FLUSH,
        NO_ISOLATION,
        ZeroDivisor,
        Stage::ForwardThru,
    ),
    (
        FLUSH,
        [ZERO, MOST, ONE, ZERO],
        Isolation {
            forward: Some(LEAST),
            reverse: None,
        },
        OffScale,
        Stage::ForwardThru,
    ),
    // T12 is zero
    (
        [HALF, ONE, ZERO, QUARTER],
        FLUSH,
        NO_ISOLATION,
        ZeroDivisor,
        Stage::ReverseThru,
    ),
    (
        FLUSH,
        [ZERO, ONE, MOST, ZERO],
        Isolation {
            forward: None,
            reverse: Some(LEAST),
        },
        OffScale,
        Stage::ReverseThru,
    ),
    (
        FLUSH,
        [ZERO, MOST, MOST, ZERO],
        Isolation {
            forward: Some(LEAST),
            reverse: Some(LEAST),
        },
        OffScale,
        Stage::ForwardThru,
    ),
];

#[test]
fn thrus_are_refused(rt: HostRuntime) -> Result<(), Fail> {
    for (thru, read_thru, isolation, cause, stage) in THRUS {
        let listed = standards(IDEAL, IDEAL, thru)?;
        let read = standards(IDEAL, IDEAL, read_thru)?;
        assert_eq!(rt; solve(listed, read, isolation)?, refused(cause, stage));
    }
    Ok(())
}

const PERFECT: Six = [ZERO, ZERO, ONE, ZERO, ZERO, ONE];

#[test]
fn corrections_are_refused(rt: HostRuntime) -> Result<(), Fail> {
    let deaf = twelve(PERFECT, [ZERO, ZERO, ZERO, ZERO, ZERO, ONE])?;
    assert_eq!(rt;
        deaf.correct(four(FLUSH)?),
        refused(ZeroDivisor, Stage::Correct)
    );
    let shifted = twelve(PERFECT, [LEAST, ZERO, ONE, ZERO, ZERO, ONE])?;
    let raw = four([ZERO, ZERO, ZERO, (1, 0, 0)])?;
    assert_eq!(rt; shifted.correct(raw), refused(OffScale, Stage::Correct));
    Ok(())
}

#[test]
fn embeddings_are_refused(rt: HostRuntime) -> Result<(), Fail> {
    let resonant = [ZERO, ONE, ONE, ZERO, ZERO, ONE];
    let forward = twelve(resonant, PERFECT)?;
    assert_eq!(rt;
        forward.embed(four([ONE, ZERO, ZERO, ZERO])?),
        refused(ZeroDivisor, Stage::Embed)
    );
    let reverse = twelve(PERFECT, resonant)?;
    assert_eq!(rt;
        reverse.embed(four([ZERO, ZERO, ZERO, ONE])?),
        refused(ZeroDivisor, Stage::Embed)
    );
    let large = four([MOST, ZERO, ZERO, (2 * U, 0, 0)])?;
    assert_eq!(rt;
        twelve(PERFECT, PERFECT)?.embed(large),
        refused(OffScale, Stage::Embed)
    );
    Ok(())
}

#[test]
fn numbers_of_stages(rt: HostRuntime) {
    let stages = [
        Stage::Port1,
        Stage::Port2,
        Stage::ForwardThru,
        Stage::ReverseThru,
        Stage::Correct,
        Stage::Embed,
    ];
    assert_eq!(rt; stages.map(u8::from), [1, 2, 3, 4, 5, 6]);
}
