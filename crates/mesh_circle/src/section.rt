//! Sections: two neighbouring circles of a path and their outer tangents.

ghost use Rattle.std.specs.Prelude.{◌≡◌, ◌&&◌, false, IfSome, pos, int_le};
ghost use Rattle.mesh_plane.specs.Bounds.{IsSafe};
ghost use Rattle.mesh_plane.specs.Plane.{plus};
ghost use Rattle.mesh_circle.specs.Sections.{IsSafeCircle, IsSafeSection, is_nested, has_no_section, section_of};
ghost use Rattle.mesh_circle.specs.Sections.{with_contacts, left_contact, right_contact, IsContact, HasContacts};
ghost use Rattle.mesh_circle.specs.Tangents.{IsWithinRadius};

use crate::circle::Circle;
use crate::offsets::{TangentOffsets, tangent_offsets};
use mesh_num::num::{IntNumber, IntPoint, IntVector};
use std::alloc::AllocError;
use std::marker::Model;

/// Two circles and the points at which their outer tangents touch them, on the left and on the right of the line from
/// the first center to the second. Contracts see the record of all.
#[derive(Debug, Copy)]
pub struct Section<I: IntNumber> {
    /// The circle at the start.
    pub a: Circle<I>,
    /// The circle at the end.
    pub b: Circle<I>,
    /// Where the left tangent touches `a`.
    pub a_left: IntPoint<I>,
    /// Where the right tangent touches `a`.
    pub a_right: IntPoint<I>,
    /// Where the left tangent touches `b`.
    pub b_left: IntPoint<I>,
    /// Where the right tangent touches `b`.
    pub b_right: IntPoint<I>,
}

impl<I: IntNumber> Model for Section<I> {
    ghost use Rattle.mesh_circle.specs.Sections.{Section as PlaneSection};

    ghost Value = { PlaneSection };

    ghost view = { λ s. record {
      a = s.a;
      b = s.b;
      a_left = s.a_left;
      a_right = s.a_right;
      b_left = s.b_left;
      b_right = s.b_right;
    } };

    ghost inverse = { λ s. record {
      a = s.a;
      b = s.b;
      a_left = s.a_left;
      a_right = s.a_right;
      b_left = s.b_left;
      b_right = s.b_right;
    } };
}

impl<I: IntNumber> Clone for Section<I> {
    ghost is_clone = { λ first second. second ≡ first };

    ghost is_infallible = { λ _. Unit {0} };

    fn clone(&self) -> Result<Self, AllocError> {
        Ok(*self)
    }
}

impl<I: IntNumber> Section<I> {
    /// The section of two circles, `None` where their centers are one point, where both radii are at most 1, or where a
    /// circle holds the other. Each radius is at least 0, and the square round each circle lies in the safe range, so
    /// that the four points do. A point is not farther from its center than the radius in any coordinate, nor is its
    /// distance, cut to a whole number.
    pub fn new(a: Circle<I>, b: Circle<I>) -> Option<Self>
        requires a { IsSafeCircle I.unit a }
        requires b { IsSafeCircle I.unit b }
        ensures value { result ≡ section_of I.unit a b }
        ensures contacts { IfSome result HasContacts }
        ensures safe { IfSome result (IsSafeSection I.unit) }
    {
        if has_no_section(a, b) {
            return None;
        }
        Some(with_contacts(a, b))
    }
}

// Whether two circles have no section. Where their centers are one point, one holds the other.
fn has_no_section<I: IntNumber>(a: Circle<I>, b: Circle<I>) -> bool
    requires a { IsSafeCircle I.unit a }
    requires b { IsSafeCircle I.unit b }
    ensures { result ≡ has_no_section a b }
{
    are_dots(a, b) || a.is_nested_with(b)
}

// Whether both radii are at most 1.
fn are_dots<I: IntNumber>(a: Circle<I>, b: Circle<I>) -> bool
    ensures { result ≡ (int_le a.radius (pos 1) && int_le b.radius (pos 1)) }
{
    a.is_dot() && b.is_dot()
}

// The section of two circles of which neither holds the other.
fn with_contacts<I: IntNumber>(a: Circle<I>, b: Circle<I>) -> Section<I>
    requires a { IsSafeCircle I.unit a }
    requires b { IsSafeCircle I.unit b }
    requires tangents { is_nested a b ≡ false }
    ensures value { result ≡ with_contacts I.unit a b }
    ensures contacts { HasContacts result }
    ensures safe { IsSafeSection I.unit result }
{
    let offsets = offsets_between(a, b);
    Section {
        a,
        b,
        a_left: contact(a, &offsets.a_left),
        a_right: contact(a, &offsets.a_right),
        b_left: contact(b, &offsets.b_left),
        b_right: contact(b, &offsets.b_right),
    }
}

// The tangent offsets of two circles of which neither holds the other.
#[tactic(auto, unfolding(crate::specs::Sections::left_contact, crate::specs::Sections::right_contact))]
fn offsets_between<I: IntNumber>(a: Circle<I>, b: Circle<I>) -> TangentOffsets<I>
    requires a { IsSafeCircle I.unit a }
    requires b { IsSafeCircle I.unit b }
    requires tangents { is_nested a b ≡ false }
    ensures a_left { plus a.center result.a_left ≡ left_contact I.unit a b a }
    ensures a_right { plus a.center result.a_right ≡ right_contact I.unit a b a }
    ensures b_left { plus b.center result.b_left ≡ left_contact I.unit a b b }
    ensures b_right { plus b.center result.b_right ≡ right_contact I.unit a b b }
    ensures a_within { IsWithinRadius a.radius result.a_left × IsWithinRadius a.radius result.a_right }
    ensures b_within { IsWithinRadius b.radius result.b_left × IsWithinRadius b.radius result.b_right }
{
    tangent_offsets(&(b.center - a.center), a.radius, b.radius)
}

// The point of a circle at the end of a vector from its center.
fn contact<I: IntNumber>(circle: Circle<I>, offset: &IntVector<I>) -> IntPoint<I>
    requires circle { IsSafeCircle I.unit circle }
    requires within { IsWithinRadius circle.radius offset.now }
    ensures value { result ≡ plus circle.center offset.now }
    ensures contact { IsContact circle result }
    ensures safe { IsSafe I.unit result }
{
    circle.center.moved(offset)
}
