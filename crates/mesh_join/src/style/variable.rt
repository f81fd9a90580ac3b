//! Vertices and styles of strokes whose width changes from vertex to vertex.

ghost use Rattle.std.specs.Prelude.{◌≡◌};
ghost use Rattle.mesh_join.specs.VariableStyles.{default_variable_style};

use crate::style::MathMode;
use mesh_arc::arc::ArcOptions;
use mesh_num::num::{Angle, IntNumber, IntPoint};
use std::alloc::AllocError;
use std::marker::Model;

/// A vertex of a stroke whose width changes from vertex to vertex. Contracts see the record of both its fields.
#[derive(Debug, Copy)]
pub struct IntStrokeVertex<I: IntNumber> {
    /// Where it lies, in grid units.
    pub point: IntPoint<I>,
    /// The width there in grid units; half of it is rounded up, and a width below 0 counts as 0.
    pub width: I,
}

impl<I: IntNumber> Model for IntStrokeVertex<I> {
    ghost use Rattle.mesh_join.specs.VariableStyles.{Vertex};

    ghost Value = { Vertex };

    ghost view = { λ v. record { point = v.point; width = I.value v.width } };

    ghost inverse = { λ v. record { point = v.point; width = I.of_value v.width } };

    ghost inverse_ok = { λ a h. λ i. record { point = a.point; width = I.value_back a.width i } };
}

impl<I: IntNumber> Clone for IntStrokeVertex<I> {
    ghost is_clone = { λ first second. second ≡ first };

    ghost is_infallible = { λ _. Unit {0} };

    fn clone(&self) -> Result<Self, AllocError> {
        Ok(*self)
    }
}

impl<I: IntNumber> IntStrokeVertex<I> {
    /// The vertex at a point, with this width.
    pub fn new(point: IntPoint<I>, width: I) -> Self
        ensures { result ≡ record { point = point; width = I.value width } }
    {
        IntStrokeVertex { point, width }
    }
}

/// The greatest step of the arcs of variable strokes, in bits of 2^32 a turn, where none is asked for.
pub const DEFAULT_VARIABLE_STEP: u32 = 68_356_528;

/// How paths are stroked whose width changes from vertex to vertex. Their ends are round, and so are their corners.
#[derive(Debug, Clone, Copy)]
pub struct IntVariableStrokeStyle {
    /// How finely arcs are drawn.
    pub arc: ArcOptions,
    /// The arithmetic.
    pub math: MathMode,
}

impl IntVariableStrokeStyle {
    /// Arcs with steps of at most 68,356,528 bits and precision 5.
    pub fn new() -> Self
        ensures { result ≡ default_variable_style }
    {
        IntVariableStrokeStyle {
            arc: ArcOptions {
                max_step: Angle::from_bits(DEFAULT_VARIABLE_STEP),
                rotation_precision: 5,
            },
            math: MathMode::Integer,
        }
    }

    /// The style with other arcs.
    pub fn arc(self, options: ArcOptions) -> Self
        ensures { result ≡ record self { arc = options } }
    {
        IntVariableStrokeStyle {
            arc: options,
            ..self
        }
    }

    /// The style with another arithmetic.
    pub fn math(self, math: MathMode) -> Self
        ensures { result ≡ record self { math = math } }
    {
        IntVariableStrokeStyle { math, ..self }
    }
}

/// The style of `new`.
impl Default for IntVariableStrokeStyle {
    fn default() -> Self
        ensures { result ≡ default_variable_style }
    {
        IntVariableStrokeStyle::new()
    }
}
