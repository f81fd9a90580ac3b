//! Where a drawing leaves the range in which it may be drawn.

ghost use Rattle.std.specs.Prelude.{◌≡◌, ◌↔◌, ◌*◌, ◌+ℤ◌, ◌-ℤ◌, None, IfSome, IsTrue};
ghost use Rattle.mesh_plane.specs.Bounds.{IsSmall, IsWithin};
ghost use Rattle.mesh_plane.specs.Plane.{Point};
ghost use Rattle.mesh_num.specs.Paths.{paths_of};
ghost use Rattle.mesh_num.specs.Rectangle.{IsSafeWidened};
ghost use Rattle.mesh_shapes.specs.Contours.{double_area as double_area_of};
ghost use Rattle.mesh_drawing.specs.Drawings.{MayBeDrawn};
ghost use Rattle.mesh_drawing.specs.Drawn.{drawn_of};
ghost use Rattle.mesh_drawing.specs.Paddings.{padding_in};
ghost use Rattle.mesh_drawing.specs.Refusals.{IsFirst, IsFirstArea, IsFirstPlace, IsFirstPoint, IsFirstRefusal};

use crate::drawing::Drawing;
use crate::padding::padding;
use i_overlay_mesh::outline::area::{double_area, fits_wide};
use mesh_join::style::IntStrokeVertex;
use mesh_num::num::convert::widen;
use mesh_num::num::{IntNumber, IntPoint, OverlayInt};
use std::fmt;

/// Why a drawing may not be drawn.
#[derive(Debug, Clone, Copy, PartialEq, Eq)]
pub enum Refusal {
    /// A point leaves the safe range where it moves by the padding.
    Point(PointRefusal),
    /// The double area of the contour of this index does not fit its type.
    Area(usize),
}

/// A point that leaves the safe range where it moves by the padding.
#[derive(Debug, Clone, Copy, PartialEq, Eq)]
pub struct PointRefusal {
    /// The point.
    pub place: PointPlace,
    /// How far the drawing reaches from its points at most, in grid units.
    pub padding: i64,
    /// The greatest coordinate of the safe range, in grid units; the least has the other sign.
    pub limit: i64,
}

/// A point of paths.
#[derive(Debug, Clone, Copy, PartialEq, Eq)]
pub struct PointPlace {
    /// The index of its path.
    pub path: usize,
    /// Its index in the path.
    pub point: usize,
}

impl fmt::Display for Refusal {
    fn fmt<W: fmt::Write>(&self, f: &mut fmt::Formatter<W>) -> fmt::Result {
        match self {
            Refusal::Point(refusal) => write!(f, "{refusal}"),
            Refusal::Area(path) => write!(f, "paths[{path}]: its area is too large"),
        }
    }
}

impl fmt::Display for PointRefusal {
    fn fmt<W: fmt::Write>(&self, f: &mut fmt::Formatter<W>) -> fmt::Result {
        let (path, point) = (self.place.path, self.place.point);
        let (padding, limit) = (self.padding, self.limit);
        write!(
            f,
            "paths[{path}][{point}]: with the padding {padding} it leaves the range from -{limit} to {limit}"
        )
    }
}

/// Where a drawing leaves the range first: the first point, path by path, that leaves the safe range where it moves by
/// the padding, else the first contour whose area does not fit. `None` exactly where it may be drawn.
pub fn find_refusal<I: OverlayInt>(drawing: &Drawing<I>) -> Option<Refusal>
    ensures none { result ≡ None ↔ MayBeDrawn I.unit (drawn_of I.value drawing.now) }
    ensures first { IfSome result (IsFirstRefusal I.unit (drawn_of I.value drawing.now)) }
{
    let padding = padding(drawing);
    if let Some(place) = find_point(drawing, padding) {
        return Some(Refusal::Point(PointRefusal {
            place,
            padding,
            limit: (widen(I::UNIT) - 1) as i64,
        }));
    }
    match find_area(drawing) {
        Some(contour) => Some(Refusal::Area(contour)),
        None => None,
    }
}

/// The first point that leaves the safe range where it moves by this padding, which is that of the drawing.
fn find_point<I: OverlayInt>(drawing: &Drawing<I>, padding: i64) -> Option<PointPlace>
    requires { padding ≡ padding_in (drawn_of I.value drawing.now) }
    ensures { IsFirstPoint I.unit (drawn_of I.value drawing.now) result }
{
    match drawing {
        Drawing::Outline(outline) => first_point(&outline.paths, padding),
        Drawing::Stroke(stroke) => first_point(&stroke.paths, padding),
        Drawing::VariableStroke(stroke) => first_point(&stroke.paths, padding),
    }
}

/// The first contour of an outline whose double area does not fit its type.
fn find_area<I: OverlayInt>(drawing: &Drawing<I>) -> Option<usize>
    ensures { IsFirstArea I.unit (drawn_of I.value drawing.now) result }
{
    match drawing {
        Drawing::Outline(outline) => first_area(&outline.paths),
        Drawing::Stroke(_) => None,
        Drawing::VariableStroke(_) => None,
    }
}

/// The first contour whose double area does not fit its type.
fn first_area<I: OverlayInt>(paths: &[Vec<IntPoint<I>>]) -> Option<usize>
    ensures { IsFirst (λ path. IsWithin (8 * I.unit * I.unit) (double_area_of path)) (paths_of paths.now) result }
{
    for (index, path) in paths.iter().enumerate() {
        if !fits_wide::<I>(double_area(path)) {
            return Some(index);
        }
    }
    None
}

/// The first point of the paths that leaves the safe range where it moves by the padding.
fn first_point<I: IntNumber, P: Placed<I>>(paths: &[Vec<P>], padding: i64) -> Option<PointPlace>
    ensures { IsFirstPlace (λ item. IsSafeWidened I.unit padding (P.at item)) (paths_of paths.now) result }
{
    for (index, path) in paths.iter().enumerate() {
        if let Some(point) = first_in_path(path, padding) {
            return Some(PointPlace { path: index, point });
        }
    }
    None
}

/// The first point of a path that leaves the safe range where it moves by the padding.
fn first_in_path<I: IntNumber, P: Placed<I>>(path: &[P], padding: i64) -> Option<usize>
    ensures { IsFirst (λ item. IsSafeWidened I.unit padding (P.at item)) path.now result }
{
    for (index, item) in path.iter().enumerate() {
        if !stays_safe(item.place(), padding) {
            return Some(index);
        }
    }
    None
}

/// Whether a point stays in the safe range where it moves by the padding.
fn stays_safe<I: IntNumber>(point: IntPoint<I>, padding: i64) -> bool
    ensures { IsTrue result ↔ IsSafeWidened I.unit padding point }
{
    has_room(point.x, padding) && has_room(point.y, padding)
}

/// Whether a coordinate stays in the safe range where it moves by the padding. The sum is taken in 128 bits, which hold
/// it for every value.
fn has_room<I: IntNumber>(coordinate: I, padding: i64) -> bool
    ensures { IsTrue result
        ↔ IsSmall I.unit (I.value coordinate -ℤ padding) × IsSmall I.unit (I.value coordinate +ℤ padding) }
{
    let size = widen(coordinate).unsigned_abs();
    let reach = i128::from(padding).unsigned_abs();
    size + reach < widen(I::UNIT).unsigned_abs()
}

/// What stands at a point of the plane.
trait Placed<I: IntNumber> {
    ghost at: { Self → Point };

    fn place(&self) -> IntPoint<I>
        ensures { result ≡ at self.now };
}

impl<I: IntNumber> Placed<I> for IntPoint<I> {
    ghost at = { λ p. p };

    fn place(&self) -> IntPoint<I> {
        *self
    }
}

impl<I: IntNumber> Placed<I> for IntStrokeVertex<I> {
    ghost at = { λ v. v.point };

    fn place(&self) -> IntPoint<I> {
        self.point
    }
}
