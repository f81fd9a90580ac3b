//! Arcs of directions: worked ones, and fine ones whose gaps are measured.

ghost use Rattle.std.specs.Prelude.{◌^◌};
ghost use Rattle.mesh_num.specs.Direction.{IsFresh};

use crate::directions::{direction_of_i16, direction_of_i32};
use mesh_join::arc::{ArcBuilder, ArcDirection, ArcOptions};
use mesh_num::num::{Angle, IntNumber, UnitIntVector};
use mesh_test_support::compared::{expect_equal, expect_that};
use mesh_test_support::edges::wide;
use mesh_test_support::plain::{Point, cross, dot};
use mesh_test_support::random::Random;
use std::alloc::AllocError;
use std::process::Abort;
use std::test::Fail;

const LEFT: ArcDirection = ArcDirection::Counterclockwise;

const RIGHT: ArcDirection = ArcDirection::Clockwise;

/// Options of so many bits and this precision.
fn options(bits: u32, rotation_precision: u32) -> ArcOptions {
    ArcOptions {
        max_step: Angle::from_bits(bits),
        rotation_precision,
    }
}

/// The direction of a vector that is not 0.
fn of_i16(rt: &impl Abort, vector: (i32, i32)) -> UnitIntVector<i16>
    ensures { IsFresh (2 ^ 14) result }
{
    direction_of_i16(rt, vector.0, vector.1).expect(rt, "a direction")
}

/// The direction of a vector that is not 0.
fn of_i32(rt: &impl Abort, vector: (i32, i32)) -> UnitIntVector<i32>
    ensures { IsFresh (2 ^ 30) result }
{
    let (x, y) = (i64::from(vector.0), i64::from(vector.1));
    direction_of_i32(rt, x, y).expect(rt, "a direction")
}

/// A direction as a vector.
fn plain<I: IntNumber>(direction: UnitIntVector<I>) -> Point {
    (wide(direction.x()), wide(direction.y()))
}

/// How many directions an arc has, and the last one.
fn told<I: IntNumber>(directions: &[UnitIntVector<I>]) -> (usize, Point) {
    let last = match directions.last() {
        Some(direction) => plain(*direction),
        None => (0, 0),
    };
    (directions.len(), last)
}

/// The bits and the precision of the options, the vectors that the arc leads from and to, its sense, how many
/// directions it has, and the last one, (0, 0) where there is none.
type Arc = (
    (u32, u32),
    (i32, i32),
    (i32, i32),
    ArcDirection,
    usize,
    Point,
);

const DEFAULT: (u32, u32) = (536_870_912, 5);

// The numbers were computed apart from this program, with Python's whole numbers, from the definition of an arc.
const ARCS_OF_I16: &[Arc] = &[
    (DEFAULT, (1, 0), (-1, 0), LEFT, 4, (-16303, 1606)),
    (DEFAULT, (1, 0), (-1, 0), RIGHT, 4, (-16303, -1606)),
    (DEFAULT, (1, 0), (0, 1), RIGHT, 6, (-2403, 16203)),
    (DEFAULT, (1, 0), (0, 1), LEFT, 2, (804, 16363)),
    (DEFAULT, (1, 0), (1, 0), RIGHT, 0, (0, 0)),
    (DEFAULT, (1, 0), (1, 0), LEFT, 0, (0, 0)),
    (DEFAULT, (1, 0), (1, 1), LEFT, 0, (0, 0)),
    (DEFAULT, (1, 0), (1, 1), RIGHT, 7, (9432, 13391)),
    (
        (12309758, 32),
        (0, -3),
        (-2, -3),
        RIGHT,
        34,
        (-9043, -13638),
    ),
    ((4194304, 4), (1, 0), (1, -8), LEFT, 957, (1917, -15661)),
    ((4194304, 32), (7, -3), (7, -2), RIGHT, 1146, (15061, -4257)),
    ((1, 40), (3, 4), (-7, 2), LEFT, 360, (-15524, 4471)),
    (
        (68356528, 5),
        (-5, 12),
        (-5, -12),
        RIGHT,
        40,
        (-5033, -15566),
    ),
    (
        (4294967295, 0),
        (-5, 12),
        (-5, -12),
        LEFT,
        3,
        (-8300, -14122),
    ),
];

const ARCS_OF_I32: &[Arc] = &[
    (DEFAULT, (1, 0), (-1, 0), LEFT, 4, (-1068879827, 102065703)),
    (
        DEFAULT,
        (1, 0),
        (-1, 0),
        RIGHT,
        4,
        (-1068879827, -102065703),
    ),
    (DEFAULT, (1, 0), (0, 1), RIGHT, 6, (-152809474, 1062812660)),
    (DEFAULT, (1, 0), (0, 1), LEFT, 2, (51090720, 1072525635)),
    (DEFAULT, (1, 0), (1, 0), RIGHT, 0, (0, 0)),
    (DEFAULT, (1, 0), (1, 0), LEFT, 0, (0, 0)),
    (DEFAULT, (1, 0), (1, 1), LEFT, 0, (0, 0)),
    (DEFAULT, (1, 0), (1, 1), RIGHT, 7, (622831280, 874644316)),
    (
        (12309758, 32),
        (0, -3),
        (-2, -3),
        RIGHT,
        32,
        (-585073850, -900338820),
    ),
    (
        (4194304, 4),
        (1, 0),
        (1, -8),
        LEFT,
        837,
        (129887817, -1065856039),
    ),
    (
        (4194304, 32),
        (7, -3),
        (7, -2),
        RIGHT,
        1003,
        (1033096426, -292628520),
    ),
    (
        (1, 40),
        (3, 4),
        (-7, 2),
        LEFT,
        315,
        (-1031483061, 298267677),
    ),
    (
        (68356528, 5),
        (-5, 12),
        (-5, -12),
        RIGHT,
        40,
        (-360511113, -1011411439),
    ),
    (
        (4294967295, 0),
        (-5, 12),
        (-5, -12),
        LEFT,
        3,
        (-542077233, -926862324),
    ),
];

/// The arc from one direction to the other is as the row says.
fn expect_arc<I: IntNumber>(
    arcs: &mut ArcBuilder<I>,
    from: UnitIntVector<I>,
    to: UnitIntVector<I>,
    row: &Arc,
) -> Result<(), Fail>
    requires from { IsFresh I.unit from }
    requires to { IsFresh I.unit to }
{
    let (_, first, end, sense, count, last) = *row;
    let arc = arcs.build(from, to, sense)?;
    expect_equal(&told(arc), &(count, last), &(first, end))
}

#[test]
fn arcs_of_i16(rt: HostRuntime) -> Result<(), Fail> {
    for row in ARCS_OF_I16 {
        let mut arcs = ArcBuilder::new(rt.alloc(), options(row.0.0, row.0.1));
        expect_arc(&mut arcs, of_i16(&rt, row.1), of_i16(&rt, row.2), row)?;
    }
    Ok(())
}

#[test]
fn arcs_of_i32(rt: HostRuntime) -> Result<(), Fail> {
    for row in ARCS_OF_I32 {
        let mut arcs = ArcBuilder::new(rt.alloc(), options(row.0.0, row.0.1));
        expect_arc(&mut arcs, of_i32(&rt, row.1), of_i32(&rt, row.2), row)?;
    }
    Ok(())
}

#[test]
fn first_direction(rt: HostRuntime) -> Result<(), Fail> {
    let mut arcs = ArcBuilder::<i32>::new(rt.alloc(), ArcOptions::default());
    let arc = arcs.build(of_i32(&rt, (1, 0)), of_i32(&rt, (0, 1)), LEFT)?;
    let Some(first) = arc.first() else {
        return Err(Fail::new("no direction"));
    };
    let reach = first.scale(1024);
    expect_equal(&(reach.x, reach.y), &(741, 707), &"the first direction")
}

/// Bits and precisions of options, and those that the builder has.
const CLAMPED: &[((u32, u32), (u32, u32))] = &[
    (DEFAULT, DEFAULT),
    ((1, 40), (4_194_304, 32)),
    ((0, 0), (4_194_304, 4)),
    ((4_194_303, 3), (4_194_304, 4)),
    ((4_194_305, 33), (4_194_305, 32)),
    ((536_870_913, 31), (536_870_912, 31)),
    ((4_294_967_295, 4_294_967_295), (536_870_912, 32)),
];

#[test]
fn clamped_options(rt: HostRuntime) -> Result<(), Fail> {
    expect_equal(
        &ArcOptions::default(),
        &options(DEFAULT.0, DEFAULT.1),
        &DEFAULT,
    )?;
    for row in CLAMPED {
        let (asked, used) = *row;
        let arcs = ArcBuilder::<i16>::new(rt.alloc(), options(asked.0, asked.1));
        expect_equal(&arcs.options(), &options(used.0, used.1), &asked)?;
        expect_that(arcs.directions().is_empty(), &asked)?;
    }
    Ok(())
}

/// The builder builds this arc, and has its directions then.
fn expect_built<I: IntNumber>(
    arcs: &mut ArcBuilder<I>,
    from: UnitIntVector<I>,
    to: UnitIntVector<I>,
    sense: ArcDirection,
    wanted: &[UnitIntVector<I>],
) -> Result<(), Fail>
    requires from { IsFresh I.unit from }
    requires to { IsFresh I.unit to }
{
    let is_built = are_alike(arcs.build(from, to, sense)?, wanted);
    expect_that(is_built && are_alike(arcs.directions(), wanted), &"an arc")
}

/// A builder that built before builds the arc as a new one does, and then once more.
fn expect_built_again<I: IntNumber>(
    kept: &mut ArcBuilder<I>,
    fresh: &mut ArcBuilder<I>,
    from: UnitIntVector<I>,
    to: UnitIntVector<I>,
    sense: ArcDirection,
) -> Result<(), Fail>
    requires from { IsFresh I.unit from }
    requires to { IsFresh I.unit to }
{
    let wanted = fresh.build(from, to, sense)?;
    expect_built(kept, from, to, sense, wanted)?;
    expect_built(kept, from, to, sense, wanted)
}

/// A value builds each arc as a new one does, whatever it built before.
#[test]
fn built_again(rt: HostRuntime) -> Result<(), Fail> {
    let mut kept = ArcBuilder::<i32>::new(rt.alloc(), options(12_309_758, 32));
    for row in ARCS_OF_I32 {
        let mut fresh = ArcBuilder::<i32>::new(rt.alloc(), options(12_309_758, 32));
        let (from, to) = (of_i32(&rt, row.1), of_i32(&rt, row.2));
        expect_built_again(&mut kept, &mut fresh, from, to, row.3)?;
    }
    Ok(())
}

/// Whether both arcs have the same directions.
fn are_alike<I: IntNumber>(found: &[UnitIntVector<I>], wanted: &[UnitIntVector<I>]) -> bool {
    let mut rest = wanted.iter();
    for direction in found {
        match rest.next() {
            Some(want) if plain(*direction) == plain(*want) => {}
            _ => return false,
        }
    }
    rest.next().is_none()
}

/// Builds an arc, and once more, and tells how many directions it has. The first build may be refused memory. The
/// second is not, which is proved from what is promised of the first: there is memory for as many directions.
fn built_twice<I: IntNumber>(
    arcs: &mut ArcBuilder<I>,
    from: UnitIntVector<I>,
    to: UnitIntVector<I>,
    sense: ArcDirection,
) -> Result<usize, AllocError>
    requires from { IsFresh I.unit from }
    requires to { IsFresh I.unit to }
{
    arcs.rebuild(from, to, sense)?;
    let Ok(again) = arcs.build(from, to, sense) else {
        unreachable!()
    };
    Ok(again.len())
}

#[test]
fn built_twice_of_i16(rt: HostRuntime) -> Result<(), Fail> {
    for row in ARCS_OF_I16 {
        let mut arcs = ArcBuilder::new(rt.alloc(), options(row.0.0, row.0.1));
        let (from, to) = (of_i16(&rt, row.1), of_i16(&rt, row.2));
        let found = built_twice(&mut arcs, from, to, row.3)?;
        expect_equal(&found, &row.4, &(row.1, row.2))?;
    }
    Ok(())
}

#[test]
fn built_twice_of_i32(rt: HostRuntime) -> Result<(), Fail> {
    for row in ARCS_OF_I32 {
        let mut arcs = ArcBuilder::new(rt.alloc(), options(row.0.0, row.0.1));
        let (from, to) = (of_i32(&rt, row.1), of_i32(&rt, row.2));
        let found = built_twice(&mut arcs, from, to, row.3)?;
        expect_equal(&found, &row.4, &(row.1, row.2))?;
    }
    Ok(())
}

/// Whether `w` lies ahead of `v` by at most the angle, of less than a quarter turn, with this sine and cosine.
fn is_within(sense: ArcDirection, (sine, cosine): (i32, i32), v: Point, w: Point) -> bool {
    let ahead = match sense {
        ArcDirection::Counterclockwise => cross(v, w),
        ArcDirection::Clockwise => cross(w, v),
    };
    let onward = dot(v, w);
    let flat = ahead.wrapping_mul(i128::from(cosine)) <= onward.wrapping_mul(i128::from(sine));
    0 <= ahead && 0 < onward && flat
}

/// The bits of the finest step.
const FINEST: u32 = 4_194_304;

/// Each gap of the arc, and the one to its end, is within the finest step. None of the tests' arcs breaks off.
fn expect_gaps<I: IntNumber>(
    sense: ArcDirection,
    (from, to): (UnitIntVector<I>, UnitIntVector<I>),
    arc: &[UnitIntVector<I>],
) -> Result<(), Fail> {
    let bound = Angle::from_bits(FINEST).sin_cos();
    let mut last = plain(from);
    for direction in arc {
        let next = plain(*direction);
        let is_good = next != last && is_within(sense, bound, last, next);
        expect_that(is_good, &(last, next))?;
        last = next;
    }
    let end = plain(to);
    expect_that(is_within(sense, bound, last, end), &(last, end))
}

/// A vector that is not 0.
fn vector(random: &mut Random) -> (i32, i32) {
    let x = random.below(201) as i32;
    let y = random.below(200) as i32;
    (x.wrapping_sub(100), y.wrapping_mul(2).wrapping_sub(199))
}

/// The gaps of both arcs between two directions are within the finest step.
fn expect_both_gaps<I: IntNumber>(
    arcs: &mut ArcBuilder<I>,
    from: UnitIntVector<I>,
    to: UnitIntVector<I>,
) -> Result<(), Fail>
    requires from { IsFresh I.unit from }
    requires to { IsFresh I.unit to }
{
    expect_gaps(LEFT, (from, to), arcs.build(from, to, LEFT)?)?;
    expect_gaps(RIGHT, (from, to), arcs.build(from, to, RIGHT)?)
}

/// The gaps of arcs between 25 pairs of directions, which one value for each width builds.
fn expect_fine_gaps(
    rt: &impl Abort,
    random: &mut Random,
    small: &mut ArcBuilder<i16>,
    large: &mut ArcBuilder<i32>,
) -> Result<(), Fail> {
    for _ in 0..25 {
        let (from, to) = (vector(random), vector(random));
        expect_both_gaps(small, of_i16(rt, from), of_i16(rt, to))?;
        expect_both_gaps(large, of_i32(rt, from), of_i32(rt, to))?;
    }
    Ok(())
}

/// The finest steps, with the least precision and the greatest, between 50 pairs of directions.
#[test]
fn fine_gaps(rt: HostRuntime) -> Result<(), Fail> {
    let mut random = Random::new(1);
    for precision in &[4, 32] {
        let mut small = ArcBuilder::<i16>::new(rt.alloc(), options(FINEST, *precision));
        let mut large = ArcBuilder::<i32>::new(rt.alloc(), options(FINEST, *precision));
        expect_fine_gaps(&rt, &mut random, &mut small, &mut large)?;
    }
    Ok(())
}
