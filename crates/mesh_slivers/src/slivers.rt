//! Leaves out slivers: contours that are thin, whatever their area.

ghost use Rattle.std.specs.Prelude.{◌≡◌, ◌*◌, ◌^◌, ◌<◌, ◌||◌, false, not, max, unsigned_abs, ◌-ℤ◌};
ghost use Rattle.mesh_num.specs.Paths.{paths_of, shapes_of};
ghost use Rattle.mesh_plane.specs.Bounds.{IsSafe, IsSmall};
ghost use Rattle.mesh_plane.specs.Plane.{minus};
ghost use Rattle.mesh_slivers.specs.Slivers.{are_slivers, distance, farthest, is_in_strip, is_sliver};
ghost use Rattle.mesh_slivers.specs.Slivers.{without_holes, without_slivers, WindAlike};

use mesh_lattice::exact::{Vector, cross};
use mesh_num::num::convert::widen;
use mesh_num::num::{IntNumber, IntPoint};
use mesh_num::shape::IntShapes;

/// The polygons without their slivers. `width` is in grid units; it may be any `u32`, and coordinates may be any value
/// too.
///
/// A contour is a sliver where each of its vertices lies at most `width` from the line that leads from its first vertex
/// to the vertex farthest from that (the first one, if several are as far). Distances between points are the greater of
/// the differences in x and in y. The distance from the line is measured along the axis along which its two points
/// differ less.
///
/// Holes that are slivers are left out, and so are polygons all of whose contours are slivers. An outer contour that is
/// a sliver stays where one of its holes is none. Everything else stays as it is, in its order. At each point farther
/// than `width` from every edge that was left out, the contours wind as before. It allocates nothing and cannot fail.
pub fn without_slivers<I: IntNumber>(mut shapes: IntShapes<I>, width: u32) -> IntShapes<I>
    ensures left { shapes_of result.items ≡ without_slivers width (shapes_of shapes.items) }
    ensures winding { WindAlike width (shapes_of shapes.items) (shapes_of result.items) }
{
    shapes.retain(|shape| !are_slivers(shape, width));
    for shape in shapes.iter_mut() {
        drop_sliver_holes(shape, width);
    }
    shapes
}

/// Takes out the contours behind the first that are slivers.
fn drop_sliver_holes<I: IntNumber>(shape: &mut Vec<Vec<IntPoint<I>>>, width: u32)
    ensures { paths_of shape.new.items ≡ without_holes width (paths_of shape.old.items) }
{
    let mut is_outer = true;
    shape.retain(
        move |contour: &Vec<IntPoint<I>>| -> bool
            ensures value { result ≡ (is_outer.entry || not (is_sliver width contour.now.items)) }
            ensures after { is_outer.exit ≡ false }
        {
            let stays = is_outer || !is_sliver(contour, width);
            is_outer = false;
            stays
        },
    );
}

/// Whether all contours are slivers.
fn are_slivers<I: IntNumber>(shape: &[Vec<IntPoint<I>>], width: u32) -> bool
    ensures { result ≡ are_slivers width (paths_of shape.now) }
{
    shape.iter().all(|contour| is_sliver(contour, width))
}

/// Whether each vertex lies in the strip along the line from the first one to the one farthest from it.
fn is_sliver<I: IntNumber>(contour: &[IntPoint<I>], width: u32) -> bool
    ensures { result ≡ is_sliver width contour.now }
{
    let Some((first, others)) = contour.split_first() else {
        return true;
    };
    let start = *first;
    let end = farthest(start, others);
    contour.iter().all(|p| is_in_strip(width, start, end, *p))
}

/// Whether the point lies at most `width` from the line from `start` to `end`, along the axis along which these two
/// differ less.
fn is_in_strip<I: IntNumber>(
    width: u32,
    start: IntPoint<I>,
    end: IntPoint<I>,
    p: IntPoint<I>,
) -> bool
    ensures { result ≡ is_in_strip width start end p }
{
    let line = way(start, end);
    let turn = cross(line, way(start, p));
    turn.unsigned_abs() <= times(width, length(line))
}

/// The first of the points that are farthest from `start`, or `start` where there are none.
fn farthest<I: IntNumber>(start: IntPoint<I>, points: &[IntPoint<I>]) -> IntPoint<I>
    ensures { result ≡ farthest start points.now }
{
    let mut end = start;
    for p in points {
        if distance(start, end) < distance(start, *p) {
            end = *p;
        }
    }
    end
}

/// The greater of both coordinates' differences.
fn distance<I: IntNumber>(p: IntPoint<I>, q: IntPoint<I>) -> u128
    ensures { result ≡ distance p q }
{
    length(way(p, q))
}

/// The way from `p` to `q`.
fn way<I: IntNumber>(p: IntPoint<I>, q: IntPoint<I>) -> Vector
    ensures value { result ≡ minus q p }
    ensures size { IsSafe (2 ^ 32) result }
{
    (difference(q.x, p.x), difference(q.y, p.y))
}

fn difference<I: IntNumber>(a: I, b: I) -> i128
    ensures value { result ≡ (I.value a -ℤ I.value b) }
    ensures size { IsSmall (2 ^ 32) result }
{
    widen(a) - widen(b)
}

/// The greater of both coordinates' sizes.
fn length(way: Vector) -> u128
    requires { IsSafe (2 ^ 32) way }
    ensures value { result ≡ max (unsigned_abs way.0) (unsigned_abs way.1) }
    ensures size { result < 2 ^ 32 }
{
    let (x, y) = way;
    x.unsigned_abs().max(y.unsigned_abs())
}

fn times(width: u32, length: u128) -> u128
    requires { length < 2 ^ 32 }
    ensures { result ≡ width * length }
{
    u128::from(width) * length
}
