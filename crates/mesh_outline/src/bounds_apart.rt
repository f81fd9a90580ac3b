//! Bounds of answers, and whether they are apart from each other.

ghost use Rattle.std.specs.Prelude.{◌≡◌, ◌↔◌, [], ◌∷◌, map, true, IsTrue, ◌⊎◌};
ghost use Rattle.std.specs.Int.{int_min};
ghost use Rattle.std.specs.List.{All, AllPairs, flat_map};
ghost use Rattle.std.specs.List.Sorted.{IsPermutation};
ghost use Rattle.mesh_num.specs.Paths.{contours_of, paths_of, shapes_of};
ghost use Rattle.mesh_apart.specs.Apart.{AreBoxesApart, IsSouthOf, LiesInBox};
ghost use Rattle.mesh_offset.specs.Adding.{answer_edges};
ghost use Rattle.mesh_outline.specs.Private.Gathered.{box_of, HoldMore, IsNotPast};

use mesh_num::num::convert::{greater, is_less, narrow, widen};
use mesh_num::num::{IntNumber, IntPoint, IntRect};

/// As many tests of two bounds are made for each of them, on average. Of squares in a grid there may then be 65,000, and
/// the tests take far less time than it takes to split their edges once more.
const TESTS_EACH: usize = 128;

/// The bounds of all points of the shapes. Of no point they lie apart from all others: their west side is past their
/// east side.
pub(crate) fn bounds_of_shapes<I: IntNumber>(shapes: &[Vec<Vec<IntPoint<I>>>]) -> IntRect<I>
    ensures { All (LiesInBox (box_of result)) (answer_edges (shapes_of shapes.now)) }
{
    let mut bounds = no_bounds();
    for shape in shapes {
        bounds = with_shape(bounds, shape);
    }
    bounds
}

/// Bounds that hold no point, the west side as far east and the east side as far west as the safe range reaches.
fn no_bounds<I: IntNumber>() -> IntRect<I> {
    let most = I::UNIT;
    let least = narrow(-widen(I::UNIT));
    IntRect {
        min_x: most,
        max_x: least,
        min_y: most,
        max_y: least,
    }
}

/// Bounds that reach out to all points of a shape.
fn with_shape<I: IntNumber>(bounds: IntRect<I>, shape: &[Vec<IntPoint<I>>]) -> IntRect<I>
    ensures { HoldMore bounds result (flat_map (λ contour. contour) (paths_of shape.now)) }
{
    let mut wider = bounds;
    for contour in shape {
        wider = with_contour(wider, contour);
    }
    wider
}

/// Bounds that reach out to all points of a contour.
fn with_contour<I: IntNumber>(bounds: IntRect<I>, contour: &[IntPoint<I>]) -> IntRect<I>
    ensures { HoldMore bounds result contour.now }
{
    let mut wider = bounds;
    for point in contour {
        wider = with_point(wider, *point);
    }
    wider
}

/// Bounds that reach out to a point.
fn with_point<I: IntNumber>(bounds: IntRect<I>, point: IntPoint<I>) -> IntRect<I>
    ensures { HoldMore bounds result (point ∷ []) }
{
    IntRect {
        min_x: lesser(bounds.min_x, point.x),
        max_x: greater(bounds.max_x, point.x),
        min_y: lesser(bounds.min_y, point.y),
        max_y: greater(bounds.max_y, point.y),
    }
}

/// The lesser of two coordinates.
fn lesser<I: IntNumber>(first: I, second: I) -> I
    ensures { I.value result ≡ int_min (I.value first) (I.value second) }
{
    if is_less(second, first) {
        second
    } else {
        first
    }
}

/// Whether any two of these bounds are known to share no point. Where that takes too many tests, nothing is known.
pub(crate) fn are_apart<I: IntNumber>(bounds: Vec<IntRect<I>>) -> bool
    ensures { result ≡ true → AllPairs AreBoxesApart (map box_of bounds.items) }
{
    let ordered = from_west(bounds);
    are_apart_in_order(&ordered)
}

/// Bounds in order by their west sides.
fn from_west<I: IntNumber>(mut bounds: Vec<IntRect<I>>) -> Vec<IntRect<I>>
    ensures same { IsPermutation bounds.items result.items }
    ensures ordered { AllPairs IsNotPast result.items }
{
    bounds.sort_unstable_by_key(|rect| widen(rect.min_x));
    bounds
}

/// Whether any two of these bounds, which stand in order by their west sides, are known to share no point. Each is
/// compared with those that follow it until one starts past its east side.
fn are_apart_in_order<I: IntNumber>(bounds: &[IntRect<I>]) -> bool
    requires { AllPairs IsNotPast bounds.now }
    ensures { result ≡ true → AllPairs (λ b c. AreBoxesApart (box_of b) (box_of c)) bounds.now }
{
    let mut tests = bounds.len().saturating_mul(TESTS_EACH);
    for index in 0..bounds.len() {
        if !is_apart_from(bounds[index], &bounds[index + 1..], &mut tests) {
            return false;
        }
    }
    true
}

/// Whether bounds are known to be apart from each of those that follow them. At most as many tests are made as are
/// left.
fn is_apart_from<I: IntNumber>(
    bounds: IntRect<I>,
    following: &[IntRect<I>],
    tests: &mut usize,
) -> bool
    requires { AllPairs IsNotPast following.now }
    ensures { result ≡ true → All (λ other. AreBoxesApart (box_of bounds) (box_of other)) following.now }
{
    for other in following {
        if is_less(bounds.max_x, other.min_x) {
            return true;
        }
        if *tests == 0 || !is_south_or_north(bounds, *other) {
            return false;
        }
        *tests -= 1;
    }
    true
}

/// Whether bounds lie wholly to the south of others, or wholly to the north.
fn is_south_or_north<I: IntNumber>(bounds: IntRect<I>, other: IntRect<I>) -> bool
    ensures { result ≡ true → IsSouthOf (box_of bounds) (box_of other) ⊎ IsSouthOf (box_of other) (box_of bounds) }
{
    is_less(bounds.max_y, other.min_y) || is_less(other.max_y, bounds.min_y)
}
