//! What is known of each net before nets are compared: its contours, its edges and the box round them.

ghost use Rattle.std.specs.Prelude.{map, length, IfOk};
ghost use Rattle.mesh_num.specs.Paths.{contours_of, shapes_of};
ghost use Rattle.mesh_nets.specs.Private.Outlines.{AreOutlines, IsOutline};

use crate::boxes::{LatticeBox, box_around};
use crate::edges::edges_of;
use mesh_lattice::lattice::LatticeEdge;
use mesh_num::num::IntNumber;
use mesh_num::shape::{FlatContoursBuffer, IntShapes};
use std::alloc::{AllocError, Global};

/// A net's contours, its edges and the box round them.
#[derive(Drop)]
pub struct Outline<I: IntNumber> {
    pub contours: FlatContoursBuffer<I>,
    pub edges: Vec<LatticeEdge>,
    pub around: LatticeBox,
}

fn outline_of<I: IntNumber>(alloc: Global, net: &IntShapes<I>) -> Result<Outline<I>, AllocError>
    ensures { IfOk result (λ outline. IsOutline (contours_of (shapes_of net.now.items)) outline) }
{
    let contours = FlatContoursBuffer::from_shapes(alloc, net)?;
    let edges = edges_of(alloc, &contours)?;
    let around = box_around(&edges);
    Ok(Outline {
        contours,
        edges,
        around,
    })
}

/// The outlines of nets, in order.
pub fn outlines_of<I: IntNumber>(
    alloc: Global,
    nets: &[IntShapes<I>],
) -> Result<Vec<Outline<I>>, AllocError>
    ensures { IfOk result (λ outlines. AreOutlines (map (λ net. shapes_of net.items) nets.now)
        (length nets.now) outlines.items) }
{
    let mut outlines = Vec::new(alloc);
    for net in nets {
        outlines.push(outline_of(alloc, net)?)?;
    }
    Ok(outlines)
}
