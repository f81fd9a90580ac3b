//! Styles: offsets, widths, joins, caps, and the arithmetic they use.

ghost use Rattle.std.specs.Prelude.{◌≡◌};

use mesh_arc::arc::ArcOptions;
use mesh_num::num::{Angle, IntNumber, IntPoint};
use std::rc::RcSlice;

mod variable;

pub use variable::{DEFAULT_VARIABLE_STEP, IntStrokeVertex, IntVariableStrokeStyle};

/// The arithmetic of a construction. With whole numbers the result is the same on every machine.
#[derive(Debug, Clone, Copy, PartialEq, Eq)]
pub enum MathMode {
    /// Whole numbers only.
    Integer,
}

/// How the sections of a boundary are joined at an outer corner.
#[derive(Debug, Clone, Copy, PartialEq, Eq, Default)]
pub enum IntLineJoin {
    /// A straight edge between the two moved end points.
    #[default]
    Bevel,
    /// A sharp corner, where the two moved sections meet. The angle is the least angle between sections that still gets
    /// a peak, in bits of 2^32 a turn; it counts as at least 5 degrees (59,652,323 bits) and as less than half a turn.
    /// Corners with a smaller angle are clipped by an edge, whose ends are as far away as the peak of this angle would
    /// be. Slight turns are bevelled, and so are corners whose peak would turn back or lie beyond the padding.
    Miter(Angle),
    /// An arc round the corner. Neighbouring points differ in direction by at most the greatest step of the options,
    /// except for the last one where the arc was cut short. Points that rounding puts behind the one before them are
    /// left out, which leaves a wider gap.
    Round(ArcOptions),
}

/// The default turn below which a miter is drawn as a bevel, in bits of 2^32 a turn: 5 degrees, rounded down.
pub const DEFAULT_MITER_MIN_TURN: u32 = 59_652_323;

/// The style of an outline.
#[derive(Debug, Clone, Copy)]
pub struct IntOutlineStyle<I: IntNumber> {
    /// How far outer boundaries move, in grid units: outwards if above 0, inwards if below.
    pub outer_offset: I,
    /// How far the boundaries of holes move, in grid units: into the hole if above 0, out of it if below.
    pub inner_offset: I,
    /// The join of outer corners.
    pub join: IntLineJoin,
    /// The turn below which a miter is drawn as a bevel. More than half a turn counts as half a turn.
    pub miter_min_turn: Angle,
    /// The arithmetic.
    pub math: MathMode,
}

impl<I: IntNumber> IntOutlineStyle<I> {
    /// The style with this offset for outer boundaries and holes, and bevel joins.
    pub fn new(offset: I) -> Self
        ensures { result ≡ record {
          outer_offset = offset;
          inner_offset = offset;
          join = IntLineJoin.Bevel;
          miter_min_turn = 59652323;
          math = MathMode.Integer;
        } }
    {
        IntOutlineStyle {
            outer_offset: offset,
            inner_offset: offset,
            join: IntLineJoin::Bevel,
            miter_min_turn: Angle::from_bits(DEFAULT_MITER_MIN_TURN),
            math: MathMode::Integer,
        }
    }

    /// The style with another offset of outer boundaries.
    pub fn outer_offset(mut self, offset: I) -> Self
        ensures { result ≡ record self { outer_offset = offset } }
    {
        self.outer_offset = offset;
        self
    }

    /// The style with another offset of holes' boundaries.
    pub fn inner_offset(mut self, offset: I) -> Self
        ensures { result ≡ record self { inner_offset = offset } }
    {
        self.inner_offset = offset;
        self
    }

    /// The style with both offsets the same.
    pub fn offset(self, offset: I) -> Self
        ensures { result ≡ record self { outer_offset = offset; inner_offset = offset } }
    {
        self.outer_offset(offset).inner_offset(offset)
    }

    /// The style with another join.
    pub fn line_join(self, join: IntLineJoin) -> Self
        ensures { result ≡ record self { join = join } }
    {
        IntOutlineStyle { join, ..self }
    }

    /// The style with another turn below which a miter is a bevel. More than half a turn counts as half a turn.
    pub fn miter_min_turn(self, turn: Angle) -> Self
        ensures { result ≡ record self { miter_min_turn = turn } }
    {
        IntOutlineStyle {
            miter_min_turn: turn,
            ..self
        }
    }

    /// The style with another arithmetic.
    pub fn math(self, math: MathMode) -> Self
        ensures { result ≡ record self { math = math } }
    {
        IntOutlineStyle { math, ..self }
    }
}

/// The cap at an end of an open path.
#[derive(Debug, Clone, Drop)]
pub enum IntLineCap<I: IntNumber> {
    /// A straight edge through the end point.
    Butt,
    /// A straight edge half the width beyond the end point, and the two edges that lead to it.
    Square,
    /// An arc round the end point. Neighbouring points differ in direction by at most the greatest step of the options.
    /// Points that rounding puts behind the one before them are left out.
    Round(ArcOptions),
    /// Edges through these points, in grid units, for an end at (0, 0) that looks along the x axis. They are turned to
    /// the direction in which the end looks. They lead from the right of the path, where y is below 0, to its left.
    Custom(RcSlice<IntPoint<I>>),
}

/// Which side of its path a stroke covers, seen along the path.
#[derive(Debug, Clone, Copy, PartialEq, Eq, Default)]
pub enum StrokeSide {
    /// Both sides: the whole stroke.
    #[default]
    Both,
    /// Only the left half, between the path and what lies to its left.
    Left,
    /// Only the right half. Where the path turns exactly back, the join belongs to this half.
    Right,
}

/// The style of a stroke.
#[derive(Debug, Clone, Drop)]
pub struct IntStrokeStyle<I: IntNumber> {
    /// The width in grid units; half of it is rounded up. A width of at most 2 draws nothing.
    pub width: I,
    /// The cap at the start of an open path.
    pub start_cap: IntLineCap<I>,
    /// The cap at the end of an open path.
    pub end_cap: IntLineCap<I>,
    /// The join on the outer side of a corner.
    pub join: IntLineJoin,
    /// The turn below which a miter is drawn as a bevel. More than half a turn counts as half a turn.
    pub miter_min_turn: Angle,
    /// The arithmetic.
    pub math: MathMode,
    /// The side of the path that the stroke covers. A half is cut off straight at the ends of an open path; its caps
    /// are ignored.
    pub side: StrokeSide,
}

impl<I: IntNumber> IntStrokeStyle<I> {
    /// The style with this width, on both sides of the path, with butt caps and bevel joins.
    pub fn new(width: I) -> Self
        ensures { result ≡ record {
          width = width;
          start_cap = IntLineCap.Butt;
          end_cap = IntLineCap.Butt;
          join = IntLineJoin.Bevel;
          miter_min_turn = 59652323;
          math = MathMode.Integer;
          side = StrokeSide.Both;
        } }
    {
        IntStrokeStyle {
            width,
            start_cap: IntLineCap::Butt,
            end_cap: IntLineCap::Butt,
            join: IntLineJoin::Bevel,
            miter_min_turn: Angle::from_bits(DEFAULT_MITER_MIN_TURN),
            math: MathMode::Integer,
            side: StrokeSide::Both,
        }
    }

    /// The style with another width.
    pub fn width(self, width: I) -> Self
        ensures { result ≡ record self { width = width } }
    {
        IntStrokeStyle { width, ..self }
    }

    /// The style with another cap at the start.
    pub fn start_cap(self, cap: IntLineCap<I>) -> Self
        ensures { result ≡ record self { start_cap = cap } }
    {
        IntStrokeStyle {
            start_cap: cap,
            ..self
        }
    }

    /// The style with another cap at the end.
    pub fn end_cap(self, cap: IntLineCap<I>) -> Self
        ensures { result ≡ record self { end_cap = cap } }
    {
        IntStrokeStyle {
            end_cap: cap,
            ..self
        }
    }

    /// The style with another join.
    pub fn line_join(self, join: IntLineJoin) -> Self
        ensures { result ≡ record self { join = join } }
    {
        IntStrokeStyle { join, ..self }
    }

    /// The style with another turn below which a miter is a bevel. More than half a turn counts as half a turn.
    pub fn miter_min_turn(self, turn: Angle) -> Self
        ensures { result ≡ record self { miter_min_turn = turn } }
    {
        IntStrokeStyle {
            miter_min_turn: turn,
            ..self
        }
    }

    /// The style with another arithmetic.
    pub fn math(self, math: MathMode) -> Self
        ensures { result ≡ record self { math = math } }
    {
        IntStrokeStyle { math, ..self }
    }

    /// The style with another side. It keeps its caps, which a half ignores.
    pub fn side(self, side: StrokeSide) -> Self
        ensures { result ≡ record self { side = side } }
    {
        IntStrokeStyle { side, ..self }
    }
}
