//! Styles as tables write them.

use mesh_join::arc::ArcOptions;
use mesh_join::style::{IntLineCap, IntLineJoin, IntStrokeStyle, MathMode, StrokeSide};
use mesh_num::num::{Angle, IntPoint, OverlayInt};
use mesh_test_support::joins::JoinKind;
use std::alloc::{AllocError, Global};
use std::rc::RcSlice;

/// A cap: an arc has the bits and the precision of its options, a custom cap its points.
#[derive(Debug, Clone, Copy)]
pub enum CapRow {
    Butt,
    Square,
    Round(u32, u32),
    Custom(&'static [(i16, i16)]),
}

/// The caps at the start and at the end.
pub type Caps = (CapRow, CapRow);

/// A width, the joins, and the caps at the start and at the end.
#[derive(Debug, Clone, Copy)]
pub struct StyleRow {
    pub width: i16,
    pub join: JoinKind,
    pub start: CapRow,
    pub end: CapRow,
}

/// Options of so many bits and this precision.
fn options(bits: u32, rotation_precision: u32) -> ArcOptions {
    ArcOptions {
        max_step: Angle::from_bits(bits),
        rotation_precision,
    }
}

/// The join of this kind, and its slightest turn in bits.
fn join_of(kind: JoinKind) -> (IntLineJoin, u32) {
    match kind {
        JoinKind::Bevel => (IntLineJoin::Bevel, 0),
        JoinKind::Miter(bits, min_turn) => (IntLineJoin::Miter(Angle::from_bits(bits)), min_turn),
        JoinKind::Round(bits, precision) => (IntLineJoin::Round(options(bits, precision)), 0),
    }
}

impl CapRow {
    /// The cap of the row.
    pub fn cap<I: OverlayInt + From<i16>>(
        self,
        alloc: Global,
    ) -> Result<IntLineCap<I>, AllocError> {
        Ok(match self {
            CapRow::Butt => IntLineCap::Butt,
            CapRow::Square => IntLineCap::Square,
            CapRow::Round(bits, precision) => IntLineCap::Round(options(bits, precision)),
            CapRow::Custom(points) => {
                IntLineCap::Custom(RcSlice::from_vec(widened(alloc, points)?)?)
            }
        })
    }
}

impl StyleRow {
    /// The style of the row.
    pub fn style<I: OverlayInt + From<i16>>(
        self,
        alloc: Global,
    ) -> Result<IntStrokeStyle<I>, AllocError> {
        let (join, min_turn) = join_of(self.join);
        Ok(IntStrokeStyle {
            width: I::from(self.width),
            start_cap: self.start.cap(alloc)?,
            end_cap: self.end.cap(alloc)?,
            join,
            miter_min_turn: Angle::from_bits(min_turn),
            math: MathMode::Integer,
            side: StrokeSide::Both,
        })
    }

    /// The style with its caps exchanged.
    pub fn exchanged(self) -> StyleRow {
        StyleRow {
            start: self.end,
            end: self.start,
            ..self
        }
    }
}

/// The path of a table's points at the width `I`.
pub fn widened<I: OverlayInt + From<i16>>(
    alloc: Global,
    spots: &[(i16, i16)],
) -> Result<Vec<IntPoint<I>>, AllocError> {
    let mut points = Vec::new(alloc);
    for (x, y) in spots {
        points.push(IntPoint::new(I::from(*x), I::from(*y)))?;
    }
    Ok(points)
}
