//! Edges listed by the rows that they reach, so that the winding round a point is a sum over one row in place of all.
//! Beside each edge stands what a search wants of it, as its count.

ghost use Rattle.std.specs.Prelude.{◌≡◌, ◌+◌, ◌*ℤ◌, pos, length, IfOk, OnOk, Vec};
ghost use Rattle.std.specs.declared.alloc.Global.{Global};
ghost use Rattle.mesh_plane.specs.Plane.{Edge};
ghost use Rattle.mesh_lattice.specs.Lists.{list_at};
ghost use Rattle.mesh_lattice.specs.Marks.{place, AreRising, IsPutTo};
ghost use Rattle.mesh_lattice.specs.Rows.{first_row, last_row, AreRows};

use crate::fine::{FinePoint, doubled};
use crate::lattice::{LatticeEdge, LatticePoint};
use crate::places::{Mark, empty_lists, marks_along, place, put_to, thinned};
use crate::samples::sample;
use std::alloc::{AllocError, Global};

/// From how many edges on they are listed in more than one row.
const FEWEST: usize = 24;

/// About how many edges the marks are taken from.
const ENDS: usize = 16384;

/// About how many edges are measured to choose the number of rows.
const MEASURED: usize = 2048;

/// About how many edges are in a small sample.
pub const SAMPLED: usize = 512;

/// Lists of edges, one for each row between marks at heights on the fine grid. An edge may stand in several of them.
#[derive(Drop)]
pub struct Rows<T> {
    /// The heights between neighbouring rows, in half grid units; none is below the one before it.
    pub marks: Vec<Mark>,
    /// The edges of each row, from the lowest to the highest: one list more than there are marks.
    pub lists: Vec<Vec<(LatticeEdge, T)>>,
}

/// The point's height on the fine grid.
fn height(p: LatticePoint) -> Mark
    ensures { result.at ≡ pos 2 *ℤ p.1 }
{
    Mark {
        at: doubled(p).height(),
    }
}

/// The heights at which edges start, in order. Where edges close up, they tell of ends too.
fn heights<T: Copy>(alloc: Global, edges: &[(LatticeEdge, T)]) -> Result<Vec<Mark>, AllocError>
    ensures { IfOk result (λ v. AreRising v.items) }
{
    let mut heights = Vec::with_capacity(alloc, edges.len())?;
    for e in edges {
        heights.push(height(e.0.0).at)?;
    }
    marks_along(alloc, heights)
}

/// How many of the marks lie at a height.
fn marks_at(marks: &[Mark], height: Mark) -> usize
    requires { AreRising marks.now }
{
    let below = Mark {
        at: height.at.saturating_sub(1),
    };
    place(marks, height).saturating_sub(place(marks, below))
}

/// About how many edges reach the height at which one of them starts, on average.
#[derive(Copy, Clone)]
pub struct Reached {
    /// Edges that lie at one height reach each other's starts. An edge of the sample that runs down is counted with
    /// itself, and stands for as many as the sample passes over. So where many run down, of more than some 10,000 edges
    /// this is more than a dozen, however few reach a height.
    pub all: usize,
    /// How many but the edge that starts there, and but those that lie at that height.
    pub others: usize,
}

/// About how many of the edges reach the height at which one of them starts, by a sample.
pub fn mean_reached<T: Copy>(
    alloc: Global,
    edges: &[(LatticeEdge, T)],
) -> Result<Reached, AllocError> {
    let some = sample(alloc, edges, SAMPLED)?;
    let marks = heights(alloc, &some)?;
    let mut all: usize = 0;
    let mut others: usize = 0;
    for e in &some {
        let a = place(&marks, height(e.0.0));
        let b = place(&marks, height(e.0.1));
        let up = b.saturating_sub(a);
        let down = a.saturating_sub(b);
        let beside = if e.0.0.1 == e.0.1.1 {
            marks_at(&marks, height(e.0.0)).saturating_sub(1)
        } else {
            0
        };
        all = all.saturating_add(up.max(down).max(beside));
        others = others.saturating_add(up.max(down.saturating_sub(1)));
    }
    let count = some.len().max(1);
    Ok(Reached {
        all: all.saturating_mul(edges.len()) / count / count,
        others: others.saturating_mul(edges.len()) / count / count,
    })
}

/// How many rows serve best: an edge shall reach about four on average.
fn rows_wanted<T: Copy>(
    alloc: Global,
    edges: &[(LatticeEdge, T)],
    heights: &[Mark],
) -> Result<usize, AllocError>
    requires { AreRising heights.now }
{
    let some = sample(alloc, edges, MEASURED)?;
    let mut reached: usize = 1;
    for e in &some {
        let a = place(heights, height(e.0.0));
        let b = place(heights, height(e.0.1));
        reached = reached.saturating_add(a.abs_diff(b));
    }
    let wanted = some.len().saturating_mul(3).saturating_mul(heights.len()) / reached.max(1);
    Ok(wanted.min(edges.len() / 2))
}

/// Marks by which to list edges.
fn marks<T: Copy>(alloc: Global, edges: &[(LatticeEdge, T)]) -> Result<Vec<Mark>, AllocError>
    ensures { IfOk result (λ v. AreRising v.items) }
{
    if edges.len() < FEWEST {
        return marks_along(alloc, Vec::new(alloc));
    }
    let heights = heights(alloc, &sample(alloc, edges, ENDS)?)?;
    let wanted = rows_wanted(alloc, edges, &heights)?;
    thinned(alloc, &heights, wanted)
}

/// Adds an edge to each row that it reaches.
fn file<T: Copy>(
    marks: &[Mark],
    lists: &mut Vec<Vec<(LatticeEdge, T)>>,
    e: (LatticeEdge, T),
) -> Result<(), AllocError>
    requires rising { AreRising marks.now }
    requires len { length lists.old.items ≡ length marks.now + 1 }
    ensures { OnOk result (IsPutTo lists.old.items lists.new.items
        (first_row marks.now e) (last_row marks.now e + 1) e) }
{
    let a = place(marks, height(e.0.0));
    let b = place(marks, height(e.0.1));
    put_to(lists, a.min(b), a.max(b), e)
}

impl<T: Copy> Rows<T> {
    /// The rows of edges, each edge in all that it reaches. It fails only where memory is refused.
    pub fn new(alloc: Global, edges: &[(LatticeEdge, T)]) -> Result<Rows<T>, AllocError>
        ensures { IfOk result (λ r. AreRows r.marks.items r.lists.items edges.now) }
    {
        let marks = marks(alloc, edges)?;
        let mut lists = empty_lists(alloc, marks.len() + 1)?;
        for e in edges {
            file(&marks, &mut lists, *e)?;
        }
        Ok(Rows { marks, lists })
    }

    /// The edges of the row of a point, among them all that cross the ray from it to the east, where these are rows of
    /// edges as `new` lists them.
    pub fn row(&self, q: FinePoint) -> &[(LatticeEdge, T)]
        requires rising { AreRising self.now.marks.items }
        requires len { length self.now.lists.items ≡ length self.now.marks.items + 1 }
        ensures { (d : Vec (Edge × T) Global)
            → result.now ≡ list_at self.now.lists.items (place self.now.marks.items q.1) d }
    {
        &self.lists[place(&self.marks, Mark { at: q.height() })]
    }
}
