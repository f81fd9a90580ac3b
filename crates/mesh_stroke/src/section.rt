//! Sections: edges of a path and the points beside their ends.

ghost use Rattle.std.specs.Prelude.{◌≡◌, ◌≢◌, ◌≤◌, ℤ, pos, unsigned_abs, length, take, vec_capacity, IsOk, OnOk, IfOk};
ghost use Rattle.mesh_plane.specs.Bounds.{IsSafe};
ghost use Rattle.mesh_plane.specs.Plane.{minus, right_quarter};
ghost use Rattle.mesh_num.specs.Rectangle.{IsSafeWidened};
ghost use Rattle.mesh_lattice.specs.Split.{back};
ghost use Rattle.mesh_join.specs.Appending.{Appends, HasRoomForEdges};
ghost use Rattle.mesh_stroke.specs.Private.Sections.{own_edge, on_side, section_of, IsMade};
ghost use Rattle.mesh_stroke.specs.Strokes.{side_edges};

use mesh_join::style::StrokeSide;
use mesh_num::num::{IntNumber, IntPoint, IntVector, UnitIntVector, WideNumber};
use mesh_num::shape::segment::{Segment, SubjectSegments};
use std::alloc::AllocError;
use std::marker::Model;

/// An edge of a path from `a` to `b`, its direction, and the points beside its ends. Contracts see the record of all.
#[derive(Copy)]
pub(crate) struct StrokeSection<I: IntNumber> {
    pub(crate) direction: UnitIntVector<I>,
    pub(crate) a: IntPoint<I>,
    pub(crate) b: IntPoint<I>,
    pub(crate) a_left: IntPoint<I>,
    pub(crate) a_right: IntPoint<I>,
    pub(crate) b_left: IntPoint<I>,
    pub(crate) b_right: IntPoint<I>,
}

impl<I: IntNumber> Model for StrokeSection<I> {
    ghost use Rattle.mesh_stroke.specs.Private.Sections.{Section};

    ghost Value = { Section };

    ghost view = { λ s. record {
      a = s.a;
      b = s.b;
      direction = s.direction;
      a_left = s.a_left;
      a_right = s.a_right;
      b_left = s.b_left;
      b_right = s.b_right;
    } };

    ghost inverse = { λ s. record {
      direction = s.direction;
      a = s.a;
      b = s.b;
      a_left = s.a_left;
      a_right = s.a_right;
      b_left = s.b_left;
      b_right = s.b_right;
    } };
}

impl<I: IntNumber> Clone for StrokeSection<I> {
    fn clone(&self) -> Result<Self, AllocError>
        ensures { IfOk result (λ s. s ≡ self.now) }
    {
        Ok(*self)
    }
}

impl<I: IntNumber> StrokeSection<I> {
    /// The section of the edge from `a` to `b`, with points beside its ends at the distance of the radius.
    pub(crate) fn new(a: IntPoint<I>, b: IntPoint<I>, radius: I) -> Self
        requires differ { a ≢ b }
        requires safe_a { IsSafeWidened I.unit (pos (unsigned_abs (I.value radius))) a }
        requires safe_b { IsSafeWidened I.unit (pos (unsigned_abs (I.value radius))) b }
        ensures { result ≡ section_of I.unit (I.value radius) (a, b) }
    {
        let Some(direction) = (b - a).fast_normalize() else {
            unreachable!()
        };
        let scaled = direction.scale(radius);
        StrokeSection {
            direction,
            a,
            b,
            a_left: left_of(a, &scaled),
            a_right: a.moved_right(&scaled),
            b_left: left_of(b, &scaled),
            b_right: b.moved_right(&scaled),
        }
    }

    /// The section of the edge read backwards. Opposite directions have opposite multiples, so both sides are exchanged,
    /// and nothing is normalised or scaled again.
    pub(crate) fn reversed(&self) -> Self
        ensures edge { own_edge result ≡ back (own_edge self.now) }
        ensures made { (radius : ℤ) → IsMade I.unit radius self.now → IsMade I.unit radius result }
    {
        StrokeSection {
            direction: self.direction.opposite(),
            a: self.b,
            b: self.a,
            a_left: self.b_right,
            a_right: self.b_left,
            b_left: self.a_right,
            b_right: self.a_left,
        }
    }

    /// Adds both sides: the right one as the edge runs, the left one back. A half has the path on its other side.
    pub(crate) fn add(
        &self,
        side: StrokeSide,
        segments: &mut Vec<Segment<I>>,
    ) -> Result<(), AllocError>
        ensures ok { (radius : ℤ) → IsMade I.unit radius self.now → OnOk result (Appends segments.old segments.new
            (side_edges I.unit radius side (own_edge self.now))) }
        ensures kept { take (length segments.old.items) segments.new.items ≡ segments.old.items }
        ensures room { (radius : ℤ) → IsMade I.unit radius self.now → HasRoomForEdges segments.old
            (side_edges I.unit radius side (own_edge self.now)) → IsOk result }
        ensures capacity { vec_capacity segments.old ≤ vec_capacity segments.new }
    {
        let drawn = self.on_side(side);
        segments.push_non_degenerate(drawn.a_right, drawn.b_right)?;
        segments.push_non_degenerate(drawn.b_left, drawn.a_left)
    }

    /// The section with the side that is not drawn moved onto the path.
    pub(crate) fn on_side(&self, side: StrokeSide) -> Self
        ensures { result ≡ on_side side self.now }
    {
        match side {
            StrokeSide::Both => *self,
            StrokeSide::Left => StrokeSection {
                a_right: self.a,
                b_right: self.b,
                ..*self
            },
            StrokeSide::Right => StrokeSection {
                a_left: self.a,
                b_left: self.b,
                ..*self
            },
        }
    }
}

/// The point to the left of `point` by the length of a vector, which has to be safe.
fn left_of<I: IntNumber>(point: IntPoint<I>, scaled: &IntVector<I>) -> IntPoint<I>
    requires { IsSafe I.unit (minus point (right_quarter scaled.now)) }
    ensures { result ≡ minus point (right_quarter scaled.now) }
{
    let x = point.x.to_wide().minus(scaled.y);
    let y = point.y.to_wide().plus(scaled.x);
    IntPoint::new(I::from_wide(x), I::from_wide(y))
}
