//! Operands, and what is made of them.

use mesh_boolean::rule::{BooleanFill, BooleanFillRule, BooleanRule};
use mesh_drawing::drawing::Drawing;
use mesh_num::num::{IntPoint, OverlayInt};

/// A part of the plane, which is combined with others.
#[derive(Drop)]
pub enum Operand<I: OverlayInt> {
    /// What closed contours fill, by the fill rule of the combination.
    Paths(Vec<Vec<IntPoint<I>>>),
    /// What is drawn of paths. Fill rules do not concern it.
    Drawing(Drawing<I>),
}

/// A boolean of two operands.
#[derive(Drop)]
pub struct Boolean<I: OverlayInt> {
    pub subject: Operand<I>,
    pub clip: Operand<I>,
    /// Which points are kept.
    pub rule: BooleanRule,
    /// Which windings of each operand's contours are filled.
    pub fill: BooleanFill,
}

/// Where at least so many zones cover the plane.
#[derive(Drop)]
pub struct Coverage<I: OverlayInt> {
    pub zones: Vec<Operand<I>>,
    /// The least number of zones that hold a point which is kept; 0 is taken as 1.
    pub least: u32,
    /// Which windings of each zone's contours are filled.
    pub fill: BooleanFillRule,
}

/// Where each two zones overlap.
#[derive(Drop)]
pub struct Overlaps<I: OverlayInt> {
    pub zones: Vec<Operand<I>>,
    /// Which windings of each zone's contours are filled.
    pub fill: BooleanFillRule,
}

/// What is made of operands.
#[derive(Drop)]
pub enum Combination<I: OverlayInt> {
    /// A boolean of a subject and a clip.
    Boolean(Boolean<I>),
    /// Where at least so many zones cover the plane.
    Coverage(Coverage<I>),
    /// Where each two zones overlap.
    Overlaps(Overlaps<I>),
}
