//! Joins between two neighbouring sections.

ghost use Rattle.std.specs.Prelude.{◌≡◌, ◌+◌, ◌≤◌, OnOk, OnErr, IsOk, IsTrue, ◌++◌, length, vec_capacity};
ghost use Rattle.mesh_num.specs.Segments.{segments_of};
ghost use Rattle.mesh_join.specs.Joins.{join_edges, HasFew};
ghost use Rattle.mesh_join.specs.Styles.{JoinStyle};
ghost use Rattle.mesh_outline.specs.Outline.{joint_at, parts, sense_for};
ghost use Rattle.mesh_outline.specs.Private.Sections.{offset_join, IsCorner, IsMoved};

use crate::section::OffsetSection;
use mesh_join::arc::ArcDirection;
use mesh_join::join::Join;
use mesh_num::num::IntNumber;
use mesh_num::num::convert::{is_less, is_wide_less, wide_size};
use mesh_num::shape::segment::Segment;
use std::alloc::AllocError;

/// Connects the tops of an outer corner.
pub(crate) trait JoinBuilder<I: IntNumber> {
    ghost style: { Self → JoinStyle };

    /// Adds the join from the top of `previous` to that of `next`, whose sections were moved by `offset`.
    fn add_join(
        &mut self,
        offset: I,
        previous: &OffsetSection<I>,
        next: &OffsetSection<I>,
        segments: &mut Vec<Segment<I>>,
    ) -> Result<(), AllocError>
        requires corner { IsCorner I.unit (offset_join (I.value offset) (style self.old)) (previous.now, next.now) }
        requires outer { IsTrue (parts (I.value offset) (previous.now, next.now)) }
        ensures ok { OnOk result (segments.new.items ≡ segments.old.items
            ++ segments_of (join_edges I.unit (style self.old) (joint_at (I.value offset) (previous.now, next.now)))) }
        ensures err { OnErr result (segments.new.items ≡ segments.old.items) }
        ensures room { HasFew (style self.old) → length segments.old.items
            + length (segments_of (join_edges I.unit (style self.old)
            (joint_at (I.value offset) (previous.now, next.now))))
            ≤ vec_capacity segments.old → IsOk result }
        ensures capacity { vec_capacity segments.old ≤ vec_capacity segments.new }
        ensures same { self.new ≡ self.old };
}

impl<I: IntNumber> JoinBuilder<I> for Join<I> {
    ghost style = { λ j. j };

    fn add_join(
        &mut self,
        offset: I,
        previous: &OffsetSection<I>,
        next: &OffsetSection<I>,
        segments: &mut Vec<Segment<I>>,
    ) -> Result<(), AllocError> {
        let radius = I::from_wide(wide_size::<I>(offset));
        self.add(
            previous.b,
            previous.b_top,
            next.a_top,
            previous.direction,
            next.direction,
            radius,
            sense(offset),
            segments,
        )
    }
}

/// Whether the moved edges of two neighbouring sections part at their corner.
pub(crate) fn is_outer<I: IntNumber>(
    offset: I,
    previous: &OffsetSection<I>,
    next: &OffsetSection<I>,
) -> bool
    requires previous { IsMoved I.unit (I.value offset) previous.now }
    requires next { IsMoved I.unit (I.value offset) next.now }
    ensures { result ≡ parts (I.value offset) (previous.now, next.now) }
{
    let after = next.b - next.a;
    let before = previous.b - previous.a;
    let zero = I::ZERO.to_wide();
    let cross = after.cross_product(&before);
    let left = is_wide_less::<I>(zero, cross);
    if left || is_wide_less::<I>(cross, zero) {
        left == is_less(offset, I::ZERO)
    } else {
        is_wide_less::<I>(after.dot_product(&before), zero)
    }
}

/// The sense of the joins of an outline with this offset.
fn sense<I: IntNumber>(offset: I) -> ArcDirection
    ensures { result ≡ sense_for (I.value offset) }
{
    if is_less(offset, I::ZERO) {
        ArcDirection::Clockwise
    } else {
        ArcDirection::Counterclockwise
    }
}
