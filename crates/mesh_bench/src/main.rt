//! Splits segments that look random, always the same, to measure the splitting. The first argument is their number.
//! With the second argument `overlay` they are the sides of closed lists of four points, and are resolved into shapes.
//! With the second argument `round` so many round joins are added instead, with arcs of as many directions as the third
//! argument tells, 8 where there is none. With the second argument `directions` the directions of so many vectors are
//! found instead, with components of as many bits as the third argument tells, 31 where there is none. With the second
//! argument `request` the request on standard input is answered so many times instead. With the second argument
//! `nearness` it is answered once, with so many splits at most, any number where it is 0, and what is told is how near to
//! the drawn edges the answer is exact.
#![tactic(auto)]

mod directions;
mod joins;
mod nearness;
mod requests;

ghost use Rattle.std.specs.Prelude.{◌<◌, ◌≤◌, ◌^◌};

use crate::directions::find_directions;
use crate::joins::add_joins;
use crate::nearness::tell_nearness;
use crate::requests::answer_again;
use mesh_below::below::{FillRule, Overlay, OverlayRule};
use mesh_below::checks::are_resolvable;
use mesh_below::given::are_proper;
use mesh_below::lattice::LatticeEdge;
use mesh_below::splitter::split_edges;
use mesh_num::num::IntPoint;
use mesh_num::shape::segment::{Segment, SubjectSegments};
use mesh_offset::error::{IntNearnessError, IntOutlineError};
use mesh_request::failure::Failure;
use mesh_test_support::random::Random;
use std::alloc::{AllocError, Global};
use std::num::ParseIntError;
use std::{env, io};
use thiserror::Error;

/// The starts of the segments lie in a square of this side, in grid units.
const SIDE: u32 = 1_048_576;

/// A point of the square, and one that differs from it by at most `reach` in each coordinate.
fn edge(random: &mut Random, reach: u32) -> LatticeEdge
    requires { reach ≤ 2 ^ 21 }
{
    let x = random.below(SIDE);
    let y = random.below(SIDE);
    let east = x + random.below(2 * reach + 1);
    let north = y + random.below(2 * reach + 1);
    (
        ((x + reach) as i32, (y + reach) as i32),
        (east as i32, north as i32),
    )
}

/// Segments of a length at which about every second one is crossed.
fn edges(alloc: Global, count: u64) -> Result<Vec<LatticeEdge>, AllocError> {
    let mut random = Random::new(1);
    let reach = (7 * u64::from(SIDE) / (4 * (count.isqrt() + 1))) as u32;
    let mut edges = Vec::new(alloc);
    for _ in 0..count {
        edges.push(edge(&mut random, reach))?;
    }
    Ok(edges)
}

/// A point that differs from the given one by at most `reach` in each coordinate, and lies in the square or beside it.
fn beside(random: &mut Random, x: u32, y: u32, reach: u32) -> IntPoint<i32>
    requires x_small { x < 2 ^ 20 }
    requires y_small { y < 2 ^ 20 }
    requires reach_small { reach ≤ 2 ^ 21 }
{
    let east = x + random.below(2 * reach + 1);
    let north = y + random.below(2 * reach + 1);
    IntPoint::new(east as i32, north as i32)
}

/// Adds the sides of a closed list of four points that stand near each other.
fn push_contour(
    segments: &mut Vec<Segment<i32>>,
    random: &mut Random,
    reach: u32,
) -> Result<(), AllocError>
    requires { reach ≤ 2 ^ 21 }
{
    let x = random.below(SIDE);
    let y = random.below(SIDE);
    let first = beside(random, x, y, reach);
    let mut before = first;
    for _ in 0..3 {
        let next = beside(random, x, y, reach);
        segments.push_non_degenerate(before, next)?;
        before = next;
    }
    segments.push_non_degenerate(before, first)
}

/// Why a run ends early.
#[derive(Debug, Clone, Copy, Error)]
pub(crate) enum BenchError {
    #[error("out of memory")]
    OutOfMemory,
    #[error("the output can't be written")]
    Output,
    #[error("a count is no whole number")]
    Count,
    #[error("the second argument is none of `overlay`, `round`, `directions`, `request` and `nearness`")]
    Family,
    #[error("the request can't be read")]
    Request,
    #[error("{0}")]
    Refused(IntOutlineError),
    #[error("{0}")]
    NotTold(IntNearnessError),
}

impl From<AllocError> for BenchError {
    fn from(_error: AllocError) -> Self {
        BenchError::OutOfMemory
    }
}

impl From<IntOutlineError> for BenchError {
    fn from(error: IntOutlineError) -> Self {
        BenchError::Refused(error)
    }
}

impl From<IntNearnessError> for BenchError {
    fn from(error: IntNearnessError) -> Self {
        BenchError::NotTold(error)
    }
}

impl From<Failure> for BenchError {
    fn from(failure: Failure) -> Self {
        match failure {
            Failure::Unreadable => BenchError::Request,
            Failure::Refused(error) => BenchError::Refused(error),
        }
    }
}

impl From<io::Error> for BenchError {
    fn from(_error: io::Error) -> Self {
        BenchError::Output
    }
}

impl From<ParseIntError> for BenchError {
    fn from(_error: ParseIntError) -> Self {
        BenchError::Count
    }
}

/// The sides of closed lists, as many sides as asked.
fn sides(alloc: Global, count: u64) -> Result<Vec<Segment<i32>>, AllocError> {
    let mut random = Random::new(1);
    let reach = (u64::from(SIDE) / (count.isqrt() + 1)) as u32;
    let mut segments = Vec::new(alloc);
    for _ in 0..count / 4 {
        push_contour(&mut segments, &mut random, reach)?;
    }
    Ok(segments)
}

fn split(rt: &HostRuntime, count: u64) -> Result<(), BenchError> {
    let edges = edges(rt.alloc(), count)?;
    if !are_proper(&edges) {
        println!(rt; "a segment without length")?;
        return Ok(());
    }
    eprintln!(rt; "splitting {} segments", edges.len())?;
    let segments = split_edges(rt.alloc(), &edges)?;
    println!(rt;
        "{} segments give {} split segments",
        edges.len(),
        segments.len()
    )?;
    Ok(())
}

fn resolve(rt: &HostRuntime, count: u64) -> Result<(), BenchError> {
    let overlay = Overlay::with_segments(sides(rt.alloc(), count)?);
    let ready = are_resolvable(rt.alloc(), &overlay.segments)?;
    if !ready {
        println!(rt; "not balanced, or not in the safe range")?;
        return Ok(());
    }
    eprintln!(rt; "resolving {} segments", overlay.segments.len())?;
    let shapes = overlay.overlay(OverlayRule::Subject, FillRule::Positive)?;
    println!(rt;
        "{} segments give {} shapes",
        overlay.segments.len(),
        shapes.len()
    )?;
    Ok(())
}

/// Adds round joins with arcs of as many directions as the third argument tells.
fn join(rt: &HostRuntime, count: u64) -> Result<(), BenchError> {
    let mut directions: u32 = 8;
    if let Some(word) = env::args(rt)?.nth(3) {
        directions = word.parse::<u32>()?;
    }
    add_joins(rt, count, directions)
}

/// Finds the directions of vectors with components of as many bits as the third argument tells.
fn direct(rt: &HostRuntime, count: u64) -> Result<(), BenchError> {
    let mut bits: u32 = 31;
    if let Some(word) = env::args(rt)?.nth(3) {
        bits = word.parse::<u32>()?;
    }
    find_directions(rt, count, bits)
}

fn main(rt: HostRuntime) -> Result<(), BenchError> {
    let mut count: u64 = 100;
    if let Some(word) = env::args(&rt)?.nth(1) {
        count = word.parse::<u64>()?;
    }
    let Some(family) = env::args(&rt)?.nth(2) else {
        return split(&rt, count);
    };
    match family.as_str() {
        "overlay" => resolve(&rt, count),
        "round" => join(&rt, count),
        "directions" => direct(&rt, count),
        "request" => answer_again(&rt, count),
        "nearness" => tell_nearness(&rt, count),
        _ => Err(BenchError::Family),
    }
}
