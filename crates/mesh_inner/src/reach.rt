//! How near to its path a stroke holds each point for certain.

ghost use Rattle.std.specs.Prelude.{◌≡◌, ◌*◌, ◌^◌, ◌≤◌, ◌↔◌, IfOk, IfSome, IsTrue, pos, ◌≤ℤ◌, ◌<ℤ◌, unsigned_abs};
ghost use Rattle.std.specs.List.{All};
ghost use Rattle.mesh_join.specs.declared.style.StrokeSide.TheVariants.{Both};
ghost use Rattle.mesh_offset.specs.Padding.{ArePathsSafe};
ghost use Rattle.mesh_stroke.specs.Building.{IsStrokable};
ghost use Rattle.mesh_stroke.specs.Paths.{neighbours};
ghost use Rattle.mesh_stroke.specs.Styles.{stroke_padding, stroke_style_of};
ghost use Rattle.mesh_inner.specs.Inner.{HasJoinRoom, HaveEndsRoom, HoldsWithin};
ghost use Rattle.mesh_inner.specs.Private.Limits.{IsHalfOf, IsPathLimit, IsReachOf, lesser};
ghost use Rattle.mesh_inner.specs.Private.Walks.{AreStrokable, IsLimit};
ghost use Rattle.mesh_inner.specs.Told.{CanBeTold, IsInnerReach};

use crate::end::with_end;
use crate::joint::with_join;
use crate::section::{path_edges, reversed, sections_limit};
use mesh_join::join::Join;
use mesh_join::style::{IntStrokeStyle, StrokeSide};
use mesh_num::num::convert::widen;
use mesh_num::num::{IntNumber, IntPoint};
use mesh_num::shape::{DirectedEdge, IntShapeResource};
use mesh_offset::radius::stroke_radius;
use std::alloc::{AllocError, Global};

/// How near to its path a stroke holds each point for certain: the greatest whole number `s` for which every section,
/// join and cap of every path leaves room. The stroke of a path then holds each point whose squared distance from some
/// section of it is at most `s`, in square grid units. Butt caps take nothing from the number, but of a point beyond an
/// end that has one, or on the line across that end, nothing is told. Paths without a section have no say.
///
/// `None` where there is no such number: the style draws one half only, the radius (half of the width, rounded up) is at
/// most 1 or above a quarter of a direction's length (2^12 for `i16`, 2^28 for `i32`), no path has a section, or a join
/// or cap leaves no room, as a custom cap that turns back round the end, or a bevel where a path turns exactly back.
///
/// Each point has to stay in the safe range when it moves by the padding of the style, as for the stroke itself. It
/// fails only where memory is refused.
pub fn inner_reach<I: IntNumber, S: IntShapeResource<I>>(
    alloc: Global,
    style: &IntStrokeStyle<I>,
    paths: &S,
    closed: bool,
) -> Result<Option<u64>, AllocError>
    requires { ArePathsSafe I.unit (stroke_padding (stroke_style_of I.value style.now)) (S.paths paths.now) }
    ensures told { IfOk result (λ told. IsInnerReach I.unit (stroke_style_of I.value style.now) closed
        (S.paths paths.now) told) }
    ensures holds { IfOk result (λ told. IfSome told (λ s. All (HoldsWithin I.unit
        (stroke_style_of I.value style.now) closed s) (S.paths paths.now))) }
{
    let radius = stroke_radius(style.width);
    if !can_be_told(style.side, radius) {
        return Ok(None);
    }
    let mut least = None;
    for index in 0..paths.path_count() {
        let limit = path_limit(alloc, style, paths.path_at(index), closed)?;
        least = lesser(least, limit);
    }
    Ok(reach_of(least))
}

/// The greatest room that the stroke of a path leaves, below 0 where it leaves none; `None` where the path has no section.
fn path_limit<I: IntNumber>(
    alloc: Global,
    style: &IntStrokeStyle<I>,
    path: &[IntPoint<I>],
    closed: bool,
) -> Result<Option<i128>, AllocError>
    requires can { CanBeTold I.unit (stroke_style_of I.value style.now) }
    requires safe { All (IsStrokable I.unit (stroke_style_of I.value style.now)) path.now }
    ensures { IfOk result (λ limit. IsPathLimit I.unit (stroke_style_of I.value style.now) closed path.now limit) }
{
    let edges = path_edges(alloc, path, closed)?;
    let Some((first, others)) = edges.split_first() else {
        return Ok(None);
    };
    let radius = stroke_radius(style.width);
    let sections = sections_limit(*first, others, radius);
    let joins = with_joins(sections, alloc, style, &edges, closed)?;
    let all = with_ends(joins, alloc, style, &edges, closed)?;
    Ok(Some(all))
}

/// The lesser of two limits, of which there may be none.
fn lesser(first: Option<i128>, second: Option<i128>) -> Option<i128>
    ensures { result ≡ lesser first second }
{
    match (first, second) {
        (Some(one), Some(other)) => Some(one.min(other)),
        (Some(one), None) => Some(one),
        (None, other) => other,
    }
}

/// Whether anything can be told of strokes on this side with this radius.
fn can_be_told<I: IntNumber>(side: StrokeSide, radius: I) -> bool
    ensures { IsTrue result ↔ (side ≡ Both) × (pos 1 <ℤ I.value radius) × (4 * unsigned_abs (I.value radius) ≤ I.unit) }
{
    let radius = widen(radius);
    side == StrokeSide::Both && 1 < radius && 4 * radius <= widen(I::UNIT)
}

/// The lesser of a limit and that of the joins of a path.
fn with_joins<I: IntNumber>(
    limit: i128,
    alloc: Global,
    style: &IntStrokeStyle<I>,
    edges: &[DirectedEdge<I>],
    closed: bool,
) -> Result<i128, AllocError>
    requires { AreStrokable I.unit (stroke_style_of I.value style.now) closed edges.now }
    ensures { IfOk result (λ least. IsLimit least (λ t. (pos t ≤ℤ limit)
        × All (HasJoinRoom I.unit (stroke_style_of I.value style.now) t) (neighbours closed edges.now))) }
{
    let Some((first, others)) = edges.split_first() else {
        return Ok(limit);
    };
    let radius = stroke_radius(style.width);
    let mut join = Join::new(alloc, style.join, style.miter_min_turn);
    let mut fan = Vec::new(alloc);
    let mut least = limit;
    let mut before = *first;
    for after in others {
        least = with_join(least, &mut join, before, *after, radius, &mut fan)?;
        before = *after;
    }
    if closed {
        return with_join(least, &mut join, before, *first, radius, &mut fan);
    }
    Ok(least)
}

/// The lesser of a limit and that of the caps of a path; a closed one has none, and butt caps leave the limit as it is.
fn with_ends<I: IntNumber>(
    limit: i128,
    alloc: Global,
    style: &IntStrokeStyle<I>,
    edges: &[DirectedEdge<I>],
    closed: bool,
) -> Result<i128, AllocError>
    requires path { AreStrokable I.unit (stroke_style_of I.value style.now) closed edges.now }
    requires both { style.now.side ≡ Both }
    ensures { IfOk result (λ least. IsLimit least (λ t. (pos t ≤ℤ limit)
        × HaveEndsRoom I.unit (stroke_style_of I.value style.now) closed t edges.now)) }
{
    if closed {
        return Ok(limit);
    }
    let Some((first, others)) = edges.split_first() else {
        return Ok(limit);
    };
    let mut last = *first;
    for edge in others {
        last = *edge;
    }
    let radius = stroke_radius(style.width);
    let start = with_end(limit, alloc, &style.start_cap, reversed(*first), radius)?;
    with_end(start, alloc, &style.end_cap, last, radius)
}

/// The number that a limit stands for; there is none where there is no limit.
fn reach_of(limit: Option<i128>) -> Option<u64>
    requires { IfSome limit (λ l. l <ℤ pos (2 ^ 64)) }
    ensures { IsReachOf limit result }
{
    match limit {
        Some(room) => half_of(room),
        None => None,
    }
}

/// The greatest number for which twice the number, and 3 more, is at most this.
fn half_of(room: i128) -> Option<u64>
    requires { room <ℤ pos (2 ^ 64) }
    ensures { IsHalfOf room result }
{
    if room < 3 {
        return None;
    }
    Some(((room - 3) / 2) as u64)
}
