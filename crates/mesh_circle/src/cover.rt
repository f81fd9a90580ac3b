//! Circles in the quadrilateral of a section.

ghost use Rattle.std.specs.Prelude.{◌≡◌, ◌&&◌, ◌^◌, ◌<◌, ◌≤◌, IsTrue, pos, ◌*ℤ◌, [], ◌∷◌};
ghost use Rattle.std.specs.List.{list_all};
ghost use Rattle.mesh_plane.specs.Bounds.{IsSafe};
ghost use Rattle.mesh_plane.specs.Plane.{minus, cross, length_sq};
ghost use Rattle.mesh_plane.specs.Winding.{boundary};
ghost use Rattle.mesh_num.specs.Roots.{raised_root};
ghost use Rattle.mesh_circle.specs.Sections.{IsSafeCircle, IsSafeSection, inner_turn, keeps_inside};
ghost use Rattle.mesh_circle.specs.Sections.{covers_circle, HoldsCircle};

use crate::circle::Circle;
use crate::section::Section;
use mesh_num::num::convert::widen;
use mesh_num::num::root::raised_root;
use mesh_num::num::{IntNumber, IntPoint};

impl<I: IntNumber> Section<I> {
    /// Whether the quadrilateral of the four points surely holds a circle: it turns, and the circle's center is on the
    /// inner side of each of its sides, at a distance of at least the radius. As a side's length is raised to a whole
    /// number, a circle that touches a side may be missed. The four points and the square round the circle lie in the
    /// safe range, and the radius is at least 0.
    #[tactic(auto, unfolding(crate::specs::Sections::covers_circle))]
    pub fn covers_circle(&self, circle: Circle<I>) -> bool
        requires own { IsSafeSection I.unit self.now }
        requires circle { IsSafeCircle I.unit circle }
        ensures value { result ≡ covers_circle self.now circle }
        ensures holds { IsTrue result → HoldsCircle self.now circle }
    {
        let turn = turn_at_second(self.a_left, self.b_left, self.b_right);
        turn != 0
            && is_inside(
                turn,
                circle,
                self.a_left,
                self.b_left,
                self.b_right,
                self.a_right,
            )
    }
}

// The turn at the second of three points.
fn turn_at_second<I: IntNumber>(first: IntPoint<I>, second: IntPoint<I>, third: IntPoint<I>) -> i128
    requires first { IsSafe I.unit first }
    requires second { IsSafe I.unit second }
    requires third { IsSafe I.unit third }
    ensures { result ≡ cross (minus second first) (minus third second) }
{
    let turn = (second - first).cross_product(&(third - second));
    I::wide_to_i128(turn)
}

// Whether a circle keeps inside each side of a quadrilateral that turns so.
fn is_inside<I: IntNumber>(
    turn: i128,
    circle: Circle<I>,
    first: IntPoint<I>,
    second: IntPoint<I>,
    third: IntPoint<I>,
    fourth: IntPoint<I>,
) -> bool
    requires circle { IsSafeCircle I.unit circle }
    requires first { IsSafe I.unit first }
    requires second { IsSafe I.unit second }
    requires third { IsSafe I.unit third }
    requires fourth { IsSafe I.unit fourth }
    ensures { result ≡ list_all (keeps_inside turn circle) (boundary (first ∷ second ∷ third ∷ fourth ∷ [])) }
{
    keeps_inside_both(turn, circle, first, second, third)
        && keeps_inside_both(turn, circle, third, fourth, first)
}

// Whether a circle keeps inside two neighbouring sides.
fn keeps_inside_both<I: IntNumber>(
    turn: i128,
    circle: Circle<I>,
    first: IntPoint<I>,
    second: IntPoint<I>,
    third: IntPoint<I>,
) -> bool
    requires circle { IsSafeCircle I.unit circle }
    requires first { IsSafe I.unit first }
    requires second { IsSafe I.unit second }
    requires third { IsSafe I.unit third }
    ensures { result ≡ (keeps_inside turn circle (first, second) && keeps_inside turn circle (second, third)) }
{
    keeps_inside(turn, circle, first, second) && keeps_inside(turn, circle, second, third)
}

// Whether a circle keeps inside one side.
fn keeps_inside<I: IntNumber>(
    turn: i128,
    circle: Circle<I>,
    from: IntPoint<I>,
    to: IntPoint<I>,
) -> bool
    requires circle { IsSafeCircle I.unit circle }
    requires from { IsSafe I.unit from }
    requires to { IsSafe I.unit to }
    ensures { result ≡ keeps_inside turn circle (from, to) }
{
    let side = inner_turn(turn, from, to, circle.center);
    0 <= side && reach(circle.radius, raised_length(from, to)) <= side
}

// How far a point lies on the inner side of a side, times the side's length.
fn inner_turn<I: IntNumber>(
    turn: i128,
    from: IntPoint<I>,
    to: IntPoint<I>,
    point: IntPoint<I>,
) -> i128
    requires from { IsSafe I.unit from }
    requires to { IsSafe I.unit to }
    requires point { IsSafe I.unit point }
    ensures { result ≡ inner_turn turn (from, to) point }
{
    let side = I::wide_to_i128((to - from).cross_product(&(point - from)));
    if turn < 0 { -side } else { side }
}

// A radius times a length.
fn reach<I: IntNumber>(radius: I, length: u128) -> i128
    requires { length ≤ 2 ^ 32 }
    ensures { result ≡ I.value radius *ℤ pos length }
{
    widen(radius) * length as i128
}

// The length of a side, raised to a whole number.
fn raised_length<I: IntNumber>(from: IntPoint<I>, to: IntPoint<I>) -> u128
    requires from { IsSafe I.unit from }
    requires to { IsSafe I.unit to }
    ensures value { result ≡ raised_root (length_sq (minus to from)) }
    ensures size { result ≤ 2 ^ 32 }
{
    raised_root(I::uint_to_u128((to - from).sqr_length()))
}
