//! Circles round the vertices of a path.

ghost use Rattle.std.specs.Prelude.{◌≡◌};
ghost use Rattle.mesh_variable_stroke.specs.Chains.{circle_of as circle_round};

use mesh_circle::circle::Circle;
use mesh_join::style::IntStrokeVertex;
use mesh_num::num::IntNumber;
use mesh_offset::radius::stroke_radius;

/// The circle round a vertex, as wide as the stroke is there.
pub(crate) fn circle_of<I: IntNumber>(vertex: &IntStrokeVertex<I>) -> Circle<I>
    ensures { result ≡ circle_round vertex.now }
{
    Circle {
        center: vertex.point,
        radius: stroke_radius(vertex.width),
    }
}
