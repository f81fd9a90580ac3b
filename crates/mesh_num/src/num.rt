//! Coordinate types, points and vectors, directions, rectangles and angles.

pub mod angle;
pub mod convert;
pub(crate) mod exact;
pub mod number;
pub mod point;
pub mod quotient;
pub mod rect;
pub mod root;
pub mod rotation;
pub(crate) mod share;
pub mod unit_vector;

pub use angle::Angle;
pub use number::{IntNumber, OverlayInt, WideNumber, WideUnsigned};
pub use point::{IntPoint, IntVector};
pub use quotient::mul_div;
pub use rect::IntRect;
pub use rotation::Rotation;
pub use unit_vector::UnitIntVector;
