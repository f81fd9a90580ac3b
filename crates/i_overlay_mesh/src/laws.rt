//! Laws of outlines and strokes, and of the types that they are asked with. Functions of other crates do nothing; those
//! of this one show what a call answers. The law is the contract.

ghost use Rattle.std.specs.Prelude.{◌≡◌, ◌↔◌, IsTrue};
ghost use Rattle.std.specs.Ordering.{int_cmp, ordering_then};

pub use mesh_boolean::laws::answers_wind_once;
pub use mesh_inner::laws::{stroke_answers_hold_what_is_near, strokes_hold_what_is_near};
use mesh_join::style::{IntLineJoin, StrokeSide};
use mesh_num::num::{IntNumber, IntPoint};
pub use mesh_outline::laws::{
    answers_alone_are_regions, final_edges_are_balanced, outline_answers_reach,
    outline_edges_reach, outlines_are_drawn, outlines_are_exact, outlines_are_regions,
    outlines_reach, outlines_stay_safe,
};
pub use mesh_reach::laws::lists_reach_as_their_points;
pub use mesh_stroke::laws::{
    halves_make_the_whole, kept_radii_reach, stroke_answers_reach, stroke_edges_are_balanced,
    stroke_edges_reach, strokes_are_regions, strokes_can_be_reversed, strokes_reach,
};
pub use mesh_variable_stroke::laws::{
    steps_are_by_index, variable_stroke_answers_reach, variable_stroke_edges_are_balanced,
    variable_stroke_edges_reach, variable_strokes_are_regions, variable_strokes_reach,
};
use std::cmp::Ordering;
use std::hash::{Hash, Hasher};

/// Points are ordered by `x`, then by `y`, and two of them compare as equal exactly where they are one.
pub fn points_are_ordered<I: IntNumber>(p: &IntPoint<I>, q: &IntPoint<I>) -> Ordering
    ensures order { result ≡ ordering_then (int_cmp p.now.0 q.now.0) (int_cmp p.now.1 q.now.1) }
    ensures equal { (result ≡ Ordering.Equal) ↔ (p.now ≡ q.now) }
{
    // Read, so that the points are known to be made of their coordinates.
    let _read = (p.x, q.x);
    p.cmp(q)
}

/// Two points are equal exactly where they are one.
pub fn equal_points_are_one<I: IntNumber>(p: &IntPoint<I>, q: &IntPoint<I>) -> bool
    ensures { IsTrue result ↔ (p.now ≡ q.now) }
{
    // Read, so that the points are known to be made of their coordinates.
    let _read = (p.x, q.x);
    p == q
}

/// Points that are one change the state of a hash alike.
pub fn equal_points_hash_alike<I: IntNumber + Hash, H: Hasher>(
    p: &IntPoint<I>,
    q: &IntPoint<I>,
    a: &mut H,
    b: &mut H,
)
    ensures { p.now ≡ q.now → a.old ≡ b.old → a.new ≡ b.new }
{
    p.hash(a);
    q.hash(b);
}

/// The default join is a bevel.
pub fn joins_are_bevels_by_default() -> IntLineJoin
    ensures { result ≡ IntLineJoin.Bevel }
{
    IntLineJoin::default()
}

/// By default a stroke covers both sides of its path.
pub fn strokes_have_both_sides_by_default() -> StrokeSide
    ensures { result ≡ StrokeSide.Both }
{
    StrokeSide::default()
}
