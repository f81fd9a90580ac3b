//! Sections: edges of a contour and where they are moved to.

ghost use Rattle.std.specs.Prelude.{◌≡◌, ◌≢◌, pos, unsigned_abs, IfOk};
ghost use Rattle.mesh_num.specs.Rectangle.{IsSafeWidened};
ghost use Rattle.mesh_outline.specs.Outline.{section_of};

use mesh_num::num::{IntNumber, IntPoint, UnitIntVector};
use std::alloc::AllocError;
use std::marker::Model;

/// An edge of a contour from `a` to `b`, its direction, and where its ends are moved to. Contracts see the record of
/// all.
#[derive(Copy)]
pub(crate) struct OffsetSection<I: IntNumber> {
    pub(crate) direction: UnitIntVector<I>,
    pub(crate) a: IntPoint<I>,
    pub(crate) b: IntPoint<I>,
    pub(crate) a_top: IntPoint<I>,
    pub(crate) b_top: IntPoint<I>,
}

impl<I: IntNumber> Model for OffsetSection<I> {
    ghost use Rattle.mesh_outline.specs.Outline.{Section};

    ghost Value = { Section };

    ghost view = { λ s. record { a = s.a; b = s.b; direction = s.direction; a_top = s.a_top; b_top = s.b_top } };

    ghost inverse = { λ s. record { direction = s.direction; a = s.a; b = s.b; a_top = s.a_top; b_top = s.b_top } };
}

impl<I: IntNumber> Clone for OffsetSection<I> {
    fn clone(&self) -> Result<Self, AllocError>
        ensures { IfOk result (λ s. s ≡ self.now) }
    {
        Ok(*self)
    }
}

impl<I: IntNumber> OffsetSection<I> {
    /// The section of the edge from `a` to `b`, moved to its right by `offset`, to its left where that is negative.
    pub(crate) fn new(a: IntPoint<I>, b: IntPoint<I>, offset: I) -> Self
        requires differ { a ≢ b }
        requires safe_a { IsSafeWidened I.unit (pos (unsigned_abs (I.value offset))) a }
        requires safe_b { IsSafeWidened I.unit (pos (unsigned_abs (I.value offset))) b }
        ensures { result ≡ section_of I.unit (I.value offset) (a, b) }
    {
        let Some(direction) = (b - a).fast_normalize() else {
            unreachable!()
        };
        let scaled = direction.scale(offset);
        OffsetSection {
            direction,
            a,
            b,
            a_top: a.moved_right(&scaled),
            b_top: b.moved_right(&scaled),
        }
    }
}
