//! The contacts of tangents, and the circles that sections cover.

ghost use Rattle.std.specs.Prelude.{IfOk};
ghost use Rattle.mesh_circle.specs.Sections.{IsSafeCircle, IsSafeSection};

use crate::tables::sections::SECTIONS;
use crate::values::vertices;
use i_overlay_mesh::stroke::radius::stroke_radius;
use i_overlay_mesh::variable_stroke::offset::IntVariableStrokeOffset;
use mesh_circle::circle::Circle;
use mesh_circle::offsets::{TangentOffsets, tangent_offsets};
use mesh_circle::section::Section;
use mesh_join::style::IntStrokeVertex;
use mesh_num::num::convert::widen;
use mesh_num::num::{IntPoint, IntVector, OverlayInt, WideNumber};
use mesh_test_support::compared::{expect_equal, expect_that};
use mesh_test_support::edges::plain_point;
use mesh_test_support::plain::{Point, minus};
use mesh_test_support::rows::{broken, fields, is_for, points};
use std::alloc::Global;
use std::fmt::Debug;
use std::process::Abort;
use std::test::Fail;

/// The circle round a vertex, whose square lies in the safe range.
fn circle<I: OverlayInt>(alloc: Global, vertex: IntStrokeVertex<I>) -> Result<Circle<I>, Fail>
    ensures { IfOk result (IsSafeCircle I.unit) }
{
    let mut path = Vec::new(alloc);
    path.push(vertex)?;
    path.validate_variable_stroke()?;
    Ok(Circle {
        center: vertex.point,
        radius: stroke_radius(vertex.width),
    })
}

/// The contacts of a section.
fn contacts<I: OverlayInt>(section: &Section<I>) -> [Point; 4] {
    [
        plain_point(section.a_left),
        plain_point(section.a_right),
        plain_point(section.b_left),
        plain_point(section.b_right),
    ]
}

/// The section has the contacts of the list, which has none where there is no section.
fn expect_contacts<I: OverlayInt>(
    alloc: Global,
    section: &Option<Section<I>>,
    list: &str,
    row: &str,
) -> Result<(), Fail> {
    let wanted = points(alloc, list)?;
    match section {
        Some(section) => expect_equal(&contacts(section).as_slice(), &wanted.as_slice(), &row),
        None => expect_that(wanted.is_empty(), &row),
    }
}

/// The tangent offsets of two circles lead to the contacts of their section, and no coordinate passes its radius.
fn expect_offsets<I: OverlayInt + Debug>(
    rt: &impl Abort,
    a: Circle<I>,
    b: Circle<I>,
    section: &Section<I>,
) -> Result<(), Fail>
    requires a { IsSafeCircle I.unit a }
    requires b { IsSafeCircle I.unit b }
{
    assert!(rt; !a.is_nested_with(b));
    let offsets = tangent_offsets(&(b.center - a.center), a.radius, b.radius);
    expect_led(a, b, section, &offsets)
}

/// The offsets lead to the contacts of the section of two circles.
fn expect_led<I: OverlayInt + Debug>(
    a: Circle<I>,
    b: Circle<I>,
    section: &Section<I>,
    offsets: &TangentOffsets<I>,
) -> Result<(), Fail> {
    expect_offset(a, section.a_left, &offsets.a_left)?;
    expect_offset(a, section.a_right, &offsets.a_right)?;
    expect_offset(b, section.b_left, &offsets.b_left)?;
    expect_offset(b, section.b_right, &offsets.b_right)
}

/// The offset leads from the center to the contact, and no coordinate passes the radius.
fn expect_offset<I: OverlayInt + Debug>(
    circle: Circle<I>,
    contact: IntPoint<I>,
    offset: &IntVector<I>,
) -> Result<(), Fail> {
    let (x, y) = (offset.x.to_i128(), offset.y.to_i128());
    let found = minus(plain_point(contact), plain_point(circle.center));
    expect_equal(&found, &(x, y), &circle)?;
    let radius = widen(circle.radius);
    let is_within = x.wrapping_abs() <= radius && y.wrapping_abs() <= radius;
    expect_that(is_within, &(x, y, circle))
}

/// The section covers all circles round these vertices, or none of them.
fn expect_covered<I: OverlayInt + Debug>(
    alloc: Global,
    section: &Section<I>,
    list: &str,
    wanted: bool,
) -> Result<(), Fail>
    requires { IsSafeSection I.unit section.now }
{
    for vertex in &vertices::<I>(alloc, list)? {
        let is_covered = section.covers_circle(circle(alloc, *vertex)?);
        expect_equal(&is_covered, &wanted, vertex)?;
    }
    Ok(())
}

/// The circles round both vertices of a list.
fn ends<I: OverlayInt>(alloc: Global, list: &str) -> Result<(Circle<I>, Circle<I>), Fail>
    ensures { IfOk result (λ ends. IsSafeCircle I.unit ends.0 × IsSafeCircle I.unit ends.1) }
{
    match vertices::<I>(alloc, list)?.as_slice() {
        [a, b] => Ok((circle(alloc, *a)?, circle(alloc, *b)?)),
        _ => Err(broken(list)),
    }
}

/// The tangent offsets of two circles lead to the contacts of their section, which covers the circles of the first
/// list, and not those of the second.
fn expect_covering<I: OverlayInt + Debug>(
    rt: &impl Abort,
    alloc: Global,
    a: Circle<I>,
    b: Circle<I>,
    section: &Section<I>,
    covered: &str,
    others: &str,
) -> Result<(), Fail>
    requires a { IsSafeCircle I.unit a }
    requires b { IsSafeCircle I.unit b }
    requires section { IsSafeSection I.unit section.now }
{
    expect_offsets(rt, a, b, section)?;
    expect_covered(alloc, section, covered, true)?;
    expect_covered(alloc, section, others, false)
}

/// Both vertices of the row have the section that it stores, which covers the circles that it names, and not the others
/// there, where the row is meant for this width.
fn expect_section<I: OverlayInt + Debug>(
    rt: &impl Abort,
    alloc: Global,
    row: &str,
    fields: &[&str],
) -> Result<(), Fail> {
    let [width, circles, wanted, covered, others] = fields else {
        return Err(broken(row));
    };
    if !is_for::<I>(width) {
        return Ok(());
    }
    let (a, b) = ends::<I>(alloc, circles)?;
    let section = Section::new(a, b);
    expect_contacts(alloc, &section, wanted, row)?;
    match &section {
        Some(section) => expect_covering(rt, alloc, a, b, section, covered, others),
        None => Ok(()),
    }
}

#[test]
fn stored_sections(rt: HostRuntime) -> Result<(), Fail> {
    for row in SECTIONS.lines() {
        let fields = fields(rt.alloc(), row)?;
        expect_section::<i16>(&rt, rt.alloc(), row, &fields)?;
        expect_section::<i32>(&rt, rt.alloc(), row, &fields)?;
    }
    Ok(())
}
