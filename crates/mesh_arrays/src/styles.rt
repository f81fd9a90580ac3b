//! Styles as other languages have them: kinds as numbers, angles in bits of 2^32 a turn, lengths in grid units.

ghost use Rattle.std.specs.Prelude.{◌≡◌, option_map};
ghost use Rattle.mesh_join.specs.Styles.{style_of};
ghost use Rattle.mesh_stroke.specs.Kinds.{kind_of};
ghost use Rattle.mesh_stroke.specs.Styles.{stroke_style_of};
ghost use Rattle.mesh_drawing.specs.Parts.{uncapped_of};
ghost use Rattle.mesh_arrays.specs.Failures.{IsReadOf};
ghost use Rattle.mesh_arrays.specs.Styles.{arc_of, join_in, cap_in, side_in, flag_in, outline_style_in, stroke_style_in};
ghost use Rattle.mesh_arrays.specs.Styles.{uncapped_in};

use crate::failure::Failure;
use crate::lists::items;
use crate::numbers::Flat;
use mesh_arc::arc::ArcOptions;
use mesh_drawing::coordinate::narrowed;
use mesh_join::style::{IntLineCap, IntLineJoin, IntOutlineStyle, IntStrokeStyle, StrokeSide};
use mesh_num::num::{Angle, IntNumber, IntPoint, OverlayInt};
use std::alloc::Global;
use std::rc::RcSlice;

/// How finely an arc is drawn.
#[repr(C)]
#[derive(Clone, Copy)]
pub struct FlatArc {
    /// The greatest angle between neighbouring directions, in bits.
    pub max_step: u32,
    /// How near the step comes to the greatest one.
    pub precision: u32,
}

impl FlatArc {
    /// The options that these numbers stand for.
    pub fn options(self) -> ArcOptions
        ensures { result ≡ arc_of self }
    {
        ArcOptions {
            max_step: Angle::from_bits(self.max_step),
            rotation_precision: self.precision,
        }
    }
}

/// A join of outer corners.
#[repr(C)]
#[derive(Clone, Copy)]
pub struct FlatJoin {
    /// 0: a bevel. 1: a miter. 2: an arc.
    pub kind: u32,
    /// The least angle of a miter, in bits.
    pub miter_angle: u32,
    /// The turn below which a miter is a bevel, in bits.
    pub miter_min_turn: u32,
    /// How finely an arc is drawn.
    pub arc: FlatArc,
}

impl FlatJoin {
    /// The join that these numbers stand for, where they do for one. What its kind does not need is not looked at.
    pub fn join(&self) -> Option<IntLineJoin>
        ensures { result ≡ join_in self.now }
    {
        match self.kind {
            0 => Some(IntLineJoin::Bevel),
            1 => Some(IntLineJoin::Miter(Angle::from_bits(self.miter_angle))),
            2 => Some(IntLineJoin::Round(self.arc.options())),
            _ => None,
        }
    }
}

/// How contours are outlined.
#[repr(C)]
#[derive(Clone, Copy)]
pub struct FlatOutlineStyle {
    /// How far outer boundaries move: outwards above 0, inwards below.
    pub outer_offset: i32,
    /// How far holes' boundaries move: into the hole above 0, out of it below.
    pub inner_offset: i32,
    /// The join of outer corners.
    pub join: FlatJoin,
}

impl FlatOutlineStyle {
    /// The style that these numbers stand for, where they do for one.
    pub fn style<I: IntNumber>(&self) -> Option<IntOutlineStyle<I>>
        ensures { option_map (λ s. style_of I.value s) result ≡ outline_style_in I.unit self.now }
    {
        let outer = narrowed(self.outer_offset as i128)?;
        let inner = narrowed(self.inner_offset as i128)?;
        let join = self.join.join()?;
        Some(
            IntOutlineStyle::new(outer)
                .inner_offset(inner)
                .line_join(join)
                .miter_min_turn(Angle::from_bits(self.join.miter_min_turn)),
        )
    }
}

/// A cap of the ends of open paths.
#[repr(C)]
#[derive(Clone, Copy)]
pub struct FlatCap {
    /// 0: a butt. 1: a square. 2: an arc. 3: edges through points.
    pub kind: u32,
    /// How finely an arc is drawn.
    pub arc: FlatArc,
}

impl FlatCap {
    /// The cap that these numbers and points stand for. What its kind does not need is not looked at. `Malformed`: there
    /// is no such kind. `OutOfMemory`: memory was refused. There is no other failure.
    fn cap<I: OverlayInt, P: Flat<Item = IntPoint<I>>>(
        &self,
        alloc: Global,
        points: &[P],
    ) -> Result<IntLineCap<I>, Failure>
        ensures { IsReadOf (λ c. kind_of c) (cap_in P.item_of self.now points.now) result }
    {
        match self.kind {
            0 => Ok(IntLineCap::Butt),
            1 => Ok(IntLineCap::Square),
            2 => Ok(IntLineCap::Round(self.arc.options())),
            3 => Ok(IntLineCap::Custom(RcSlice::from_vec(items(alloc, points)?)?)),
            _ => Err(Failure::Malformed),
        }
    }
}

/// How paths are stroked.
#[repr(C)]
#[derive(Clone, Copy)]
pub struct FlatStrokeStyle {
    /// The width.
    pub width: i32,
    /// The join of two neighbouring sections.
    pub join: FlatJoin,
    /// The cap at the start of an open path.
    pub start_cap: FlatCap,
    /// The cap at the end of an open path.
    pub end_cap: FlatCap,
    /// The side of the path that is drawn. 0: both. 1: the left. 2: the right.
    pub side: u32,
    /// Whether each path goes on from its last point to its first: 0 or 1.
    pub closed: u32,
}

/// The side that a number stands for.
fn side(number: u32) -> Option<StrokeSide>
    ensures { result ≡ side_in number }
{
    match number {
        0 => Some(StrokeSide::Both),
        1 => Some(StrokeSide::Left),
        2 => Some(StrokeSide::Right),
        _ => None,
    }
}

/// Whether a number stands for yes.
pub fn flag(number: u32) -> Option<bool>
    ensures { result ≡ flag_in number }
{
    match number {
        0 => Some(false),
        1 => Some(true),
        _ => None,
    }
}

impl FlatStrokeStyle {
    /// The style that these numbers stand for, where they do for one, with butt caps.
    fn uncapped<I: OverlayInt>(&self) -> Option<IntStrokeStyle<I>>
        ensures { option_map (λ s. uncapped_of I.value s) result ≡ uncapped_in I.unit self.now }
    {
        let join = self.join.join()?;
        let side = side(self.side)?;
        let width = narrowed(self.width as i128)?;
        Some(
            IntStrokeStyle::new(width)
                .line_join(join)
                .miter_min_turn(Angle::from_bits(self.join.miter_min_turn))
                .side(side),
        )
    }

    /// The style that these numbers and the points of custom caps stand for. `Malformed`: they do for none.
    /// `OutOfMemory`: memory was refused. There is no other failure.
    pub fn style<I: OverlayInt, P: Flat<Item = IntPoint<I>>>(
        &self,
        alloc: Global,
        start_points: &[P],
        end_points: &[P],
    ) -> Result<IntStrokeStyle<I>, Failure>
        ensures { IsReadOf (λ s. stroke_style_of I.value s)
            (stroke_style_in I.unit P.item_of self.now (start_points.now, end_points.now)) result }
    {
        let Some(uncapped) = self.uncapped() else {
            return Err(Failure::Malformed);
        };
        let start = self.start_cap.cap(alloc, start_points)?;
        let end = self.end_cap.cap(alloc, end_points)?;
        Ok(uncapped.start_cap(start).end_cap(end))
    }
}
