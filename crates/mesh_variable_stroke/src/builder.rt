//! Draws the offset curve of one path whose width changes.

ghost use Rattle.std.specs.Prelude.{◌≡◌, ◌≤◌, [], vec_capacity, IsOk, OnOk, OnErr, pos, ◌≤ℤ◌};
ghost use Rattle.std.specs.List.{All};
ghost use Rattle.std.specs.List.Sorted.{IsPermutation};
ghost use Rattle.mesh_plane.specs.Winding.{IsBalanced};
ghost use Rattle.mesh_num.specs.Segments.{IsSubject};
ghost use Rattle.mesh_lattice.specs.Reach.{AreEdgesSafe};
ghost use Rattle.mesh_offset.specs.Adding.{added, added_edges, Keeps};
ghost use Rattle.mesh_offset.specs.Built.{Adds};
ghost use Rattle.mesh_offset.specs.Padding.{AreEndsNear};
ghost use Rattle.mesh_offset.specs.Pieces.{WindAsPieces};
ghost use Rattle.mesh_variable_stroke.specs.Drawn.{vertex_points, greatest_radius, AreStrokable};
ghost use Rattle.mesh_variable_stroke.specs.Reach.{WindWithinReach};
ghost use Rattle.mesh_variable_stroke.specs.VariableStrokes.{variable_stroke_edges, variable_stroke_pieces};

use crate::vertex::circle_of;
use crate::walk::Walk;
use mesh_circle::sweeper::Sweeper;
use mesh_join::style::{IntStrokeVertex, IntVariableStrokeStyle};
use mesh_num::num::IntNumber;
use mesh_num::shape::segment::Segment;
use std::alloc::{AllocError, Global};
use std::marker::Model;

/// Draws the offset curve of a path whose width changes from vertex to vertex: the outer tangents of neighbouring
/// circles, joined by arcs round the vertices. Contracts see how finely arcs are drawn.
#[derive(Drop)]
pub struct VariableStrokeBuilder<I: IntNumber> {
    sweeper: Sweeper<I>,
}

impl<I: IntNumber> Model for VariableStrokeBuilder<I> {
    ghost use Rattle.mesh_arc.specs.declared.arc.ArcOptions.{ArcOptions};

    ghost Value = { ArcOptions };

    ghost view = { λ b. b.sweeper };
}

impl<I: IntNumber> VariableStrokeBuilder<I> {
    /// A builder of strokes in this style. It allocates nothing.
    pub fn new(alloc: Global, style: IntVariableStrokeStyle) -> Self
        ensures { result ≡ style.arc }
    {
        VariableStrokeBuilder {
            sweeper: Sweeper::new(alloc, style.arc),
        }
    }

    /// Adds the offset curve of the open path through these vertices to `segments`. The radius of a vertex is half its
    /// width, rounded up. Every point has to stay in the safe range when it moves by the greatest radius of all.
    ///
    /// What the vector holds stays, and its capacity never shrinks. Where no radius is above 1, as for a path without
    /// vertices, nothing is added and the call succeeds. After an error the vector has its old length.
    ///
    /// Where one circle holds the next, or where the section before already covers it, a new chain of sections starts.
    /// Each chain is drawn along the outer tangents of its neighbouring circles, and ends round or straight.
    pub fn build(
        &mut self,
        path: &[IntStrokeVertex<I>],
        segments: &mut Vec<Segment<I>>,
    ) -> Result<(), AllocError>
        requires { AreStrokable I.unit (greatest_radius path.now) path.now }
        // What is added, and what stays.
        ensures kept { OnOk result (Keeps segments.old.items segments.new.items) }
        ensures edges { OnOk result (IsPermutation (added_edges segments.old.items segments.new.items)
            (variable_stroke_edges I.unit self.old path.now)) }
        ensures form { OnOk result (All IsSubject (added segments.old.items segments.new.items)) }
        ensures refused { OnErr result (segments.new.items ≡ segments.old.items) }
        ensures no_vertex { path.now ≡ [] → IsOk result }
        ensures thin { greatest_radius path.now ≤ℤ pos 1 → IsOk result }
        ensures nothing { greatest_radius path.now ≤ℤ pos 1 → segments.new.items ≡ segments.old.items }
        ensures capacity { vec_capacity segments.old ≤ vec_capacity segments.new }
        ensures same { self.new ≡ self.old }

        // The edges close up, and stay near the path.
        ensures balanced { OnOk result (IsBalanced (added_edges segments.old.items segments.new.items)) }
        ensures near { OnOk result (AreEndsNear (greatest_radius path.now) (vertex_points path.now)
            (added_edges segments.old.items segments.new.items)) }
        ensures safe { OnOk result (AreEdgesSafe I.unit (added_edges segments.old.items segments.new.items)) }
        ensures reach { OnOk result (WindWithinReach path.now (added_edges segments.old.items segments.new.items)) }

        // How they wind.
        ensures sum { OnOk result (WindAsPieces (variable_stroke_pieces I.unit self.old path.now)
            (added_edges segments.old.items segments.new.items)) }
    {
        let length = segments.len();
        if let Err(error) = draw(&mut self.sweeper, path, segments) {
            segments.truncate(length);
            return Err(error);
        }
        Ok(())
    }
}

/// Adds the edges of a stroke.
fn draw<I: IntNumber>(
    sweeper: &mut Sweeper<I>,
    path: &[IntStrokeVertex<I>],
    segments: &mut Vec<Segment<I>>,
) -> Result<(), AllocError>
    requires { AreStrokable I.unit (greatest_radius path.now) path.now }
    ensures ok { OnOk result (Adds segments.old.items segments.new.items
        (variable_stroke_edges I.unit sweeper.old path.now)) }
    ensures kept { Keeps segments.old.items segments.new.items }
    ensures no_vertex { path.now ≡ [] → IsOk result }
    ensures thin { greatest_radius path.now ≤ℤ pos 1 → IsOk result }
    ensures capacity { vec_capacity segments.old ≤ vec_capacity segments.new }
    ensures same { sweeper.new ≡ sweeper.old }
{
    let Some((first, rest)) = path.split_first() else {
        return Ok(());
    };
    let mut walk = Walk::new(circle_of(first));
    for vertex in rest {
        walk.step(circle_of(vertex), sweeper, segments)?;
    }
    walk.finish(sweeper, segments)
}
