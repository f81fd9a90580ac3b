//! What is drawn of paths: their outline, or their stroke with one width or one that changes.

use mesh_join::style::{IntOutlineStyle, IntStrokeStyle, IntStrokeVertex, IntVariableStrokeStyle};
use mesh_num::num::{IntPoint, OverlayInt};

/// What is drawn of paths, and how.
#[derive(Drop)]
pub enum Drawing<I: OverlayInt> {
    /// The outline of closed contours.
    Outline(Outline<I>),
    /// The stroke of paths with a width.
    Stroke(Stroke<I>),
    /// The stroke of paths whose width changes from vertex to vertex.
    VariableStroke(VariableStroke<I>),
}

/// The outline of contours.
#[derive(Drop)]
pub struct Outline<I: OverlayInt> {
    /// The closed contours to be outlined.
    pub paths: Vec<Vec<IntPoint<I>>>,
    /// The offsets of outer contours and of holes, and the joins.
    pub style: IntOutlineStyle<I>,
}

/// The stroke of paths.
#[derive(Drop)]
pub struct Stroke<I: OverlayInt> {
    /// The paths to be stroked.
    pub paths: Vec<Vec<IntPoint<I>>>,
    /// The width, the joins, and the caps of open paths.
    pub style: IntStrokeStyle<I>,
    /// Whether each path goes on from its last point to its first. A closed path has no caps.
    pub closed: bool,
}

/// The stroke of paths whose width changes from vertex to vertex.
#[derive(Drop)]
pub struct VariableStroke<I: OverlayInt> {
    /// The paths to be stroked, with the width at each vertex.
    pub paths: Vec<Vec<IntStrokeVertex<I>>>,
    /// How finely arcs are drawn.
    pub style: IntVariableStrokeStyle,
}
