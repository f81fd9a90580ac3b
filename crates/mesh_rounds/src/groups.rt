//! Segments in groups of near ones, each group with a box that holds it, so that all pairs that meet are found.

ghost use Rattle.std.specs.Prelude.{◌≡◌, true, false, [], ◌∷◌, ◌++◌, pos, ◌<ℤ◌, IfOk, OnOk, MatchOption};
ghost use Rattle.mesh_plane.specs.Plane.{Edge, turn};
ghost use Rattle.mesh_lattice.specs.Split.{AreClear, Meets};
ghost use Rattle.mesh_store.specs.BoundingBoxes.{is_beside, AreBounds};
ghost use Rattle.mesh_store.specs.Cells.{KeepsThose, StandsIn};
ghost use Rattle.mesh_rounds.specs.Private.Groups.{
  edges_in,
  noted_in,
  AreWithin,
  IsBounded,
  GoesOn,
  KeepsWaiting,
  Searches,
};
ghost use Rattle.mesh_store.specs.Steps.{exactly};

use crate::tuning::TESTS_A_PAIR;
use mesh_lattice::exact::{is_end, meeting, turn};
use mesh_lattice::lattice::{LatticeEdge, LatticePoint};
use mesh_store::bounding::{BoundingBox, bounding_box, is_beside};
use mesh_store::tree::Meeting;
use mesh_store::worklist::Worklist;
use std::alloc::{AllocError, Global};
use std::mem::replace;

/// A segment, and one that it meets.
pub type Pair = (LatticeEdge, Meeting);

/// Segments, and a box that holds them.
#[derive(Drop)]
pub enum Group {
    /// Few of them.
    Few(Vec<LatticeEdge>, BoundingBox),
    /// Those of two groups.
    Halves(Box<Group>, Box<Group>, BoundingBox),
}

/// The pairs that were found to meet.
#[derive(Drop)]
pub struct Search {
    pub pairs: Vec<Pair>,
    /// How many tests may still be made.
    left: usize,
    /// Whether more would have been made. Then pairs may be left out.
    pub is_over: bool,
    /// Room for those of few segments that are near others.
    near: Vec<LatticeEdge>,
    alloc: Global,
}

/// The box that holds two boxes.
fn union(a: BoundingBox, b: BoundingBox) -> BoundingBox
    ensures first { (e : Edge) → AreBounds a e → AreBounds result e }
    ensures second { (e : Edge) → AreBounds b e → AreBounds result e }
{
    (
        (a.0.0.min(b.0.0), a.0.1.min(b.0.1)),
        (a.1.0.max(b.1.0), a.1.1.max(b.1.1)),
    )
}

/// A box that holds segments.
fn box_of(edges: &[LatticeEdge]) -> BoundingBox
    ensures { AreWithin result edges.now }
{
    let mut bounds = ((i32::MAX, i32::MAX), (i32::MIN, i32::MIN));
    for e in edges {
        bounds = union(bounds, bounding_box(*e));
    }
    bounds
}

/// Whether a point lies beside the line of a segment.
fn is_off(x: LatticeEdge, p: LatticePoint) -> bool
    ensures { result ≡ true → turn x.0 x.1 p ≡ pos 0 → ⊥ }
{
    turn(x.0, x.1, p) != 0
}

/// Whether two segments have one end in common and lead apart from it. Then they meet nowhere else.
fn only_join(x: LatticeEdge, y: LatticeEdge) -> bool
    ensures { result ≡ true → AreClear x y }
{
    if is_end(y.0, x) {
        return is_off(x, y.1);
    }
    is_end(y.1, x) && is_off(x, y.0)
}

/// Where two segments are to be split, if they meet. Most near ones follow each other in a contour: one turn tells that
/// these do not.
fn meeting_of(x: LatticeEdge, y: LatticeEdge) -> Option<LatticePoint>
    ensures { MatchOption result (AreClear x y) (Meets x y) }
{
    if only_join(x, y) {
        return None;
    }
    meeting(x, y)
}

/// Those of some segments that do not lie beside a box.
fn keep_near(
    edges: &[LatticeEdge],
    bounds: BoundingBox,
    near: &mut Vec<LatticeEdge>,
) -> Result<(), AllocError>
    ensures { OnOk result (KeepsThose (λ x. is_beside bounds x ≡ false) edges.now near.new.items) }
{
    near.clear();
    for e in edges {
        if !is_beside(bounds, *e) {
            near.push(*e)?;
        }
    }
    Ok(())
}

impl Search {
    /// No pair, and so many tests may be made.
    pub fn new(alloc: Global, most: usize) -> Self
        ensures { result.pairs.items ≡ [] }
    {
        Search {
            pairs: Vec::new(alloc),
            left: most,
            is_over: false,
            near: Vec::new(alloc),
            alloc,
        }
    }

    /// Counts tests.
    fn count(&mut self, tests: usize)
        ensures { GoesOn self.old self.new }
    {
        if self.left < tests {
            self.is_over = true;
        }
        self.left = self.left.saturating_sub(tests);
    }

    /// Notes a pair.
    fn note(&mut self, pair: Pair) -> Result<(), AllocError>
        ensures goes { OnOk result (GoesOn self.old self.new) }
        ensures first { OnOk result (StandsIn pair.0 (noted_in self.new.pairs.items)) }
        ensures second { OnOk result (StandsIn pair.1.0 (noted_in self.new.pairs.items)) }
    {
        self.pairs.push(pair)?;
        self.left = self.left.saturating_add(TESTS_A_PAIR);
        Ok(())
    }

    /// Notes those of some segments that one meets.
    fn find_of(&mut self, x: LatticeEdge, ys: &[LatticeEdge]) -> Result<(), AllocError>
        ensures { OnOk result (Searches (x ∷ []) ys.now self.old self.new) }
    {
        self.count(ys.len());
        let bounds = bounding_box(x);
        for y in ys {
            if !is_beside(bounds, *y) {
                if let Some(at) = meeting_of(x, *y) {
                    self.note((x, (*y, at)))?;
                }
            }
        }
        Ok(())
    }

    /// Notes the pairs that meet of few segments and others, which these bounds hold.
    fn find_near(
        &mut self,
        xs: &[LatticeEdge],
        ys: &[LatticeEdge],
        bounds: BoundingBox,
    ) -> Result<(), AllocError>
        requires { AreWithin bounds ys.now }
        ensures { OnOk result (Searches xs.now ys.now self.old self.new) }
    {
        for x in xs {
            if !is_beside(bounds, *x) {
                self.find_of(*x, ys)?;
            }
        }
        Ok(())
    }

    /// The same where bounds hold the first. Of the others those are left out that lie beside these, and of the first
    /// those that lie beside the box of what is left.
    fn find_between(
        &mut self,
        xs: &[LatticeEdge],
        ys: &[LatticeEdge],
        bounds: BoundingBox,
    ) -> Result<(), AllocError>
        requires { AreWithin bounds xs.now }
        ensures { OnOk result (Searches xs.now ys.now self.old self.new) }
    {
        let mut near = replace(&mut self.near, Vec::new(self.alloc));
        keep_near(ys, bounds, &mut near)?;
        self.find_near(xs, &near, box_of(&near))?;
        self.near = near;
        Ok(())
    }

    /// Notes the pairs of few segments that meet.
    fn find_within(&mut self, xs: &[LatticeEdge]) -> Result<(), AllocError>
        ensures { OnOk result (Searches xs.now xs.now self.old self.new) }
    {
        let Some((x, others)) = xs.split_first() else {
            return Ok(());
        };
        self.find_of(*x, others)?;
        self.find_within(others)
    }
}

impl Group {
    /// Few segments.
    fn few(edges: Vec<LatticeEdge>) -> Self
        ensures bounded { IsBounded result }
        ensures same { edges_in result ≡ edges.items }
    {
        let bounds = box_of(&edges);
        Group::Few(edges, bounds)
    }

    /// Those of two groups.
    fn halves(alloc: Global, low: Group, high: Group) -> Result<Self, AllocError>
        requires low { IsBounded low }
        requires high { IsBounded high }
        ensures bounded { IfOk result (λ g. IsBounded g) }
        ensures same { IfOk result (λ g. edges_in g ≡ edges_in low ++ edges_in high) }
    {
        let bounds = union(low.bounds(), high.bounds());
        Ok(Group::Halves(Box::new(alloc, low)?, Box::new(alloc, high)?, bounds))
    }

    /// The box that holds it.
    fn bounds(&self) -> BoundingBox
        requires { IsBounded self.now }
        ensures { AreWithin result (edges_in self.now) }
    {
        match self {
            Group::Few(_, bounds) => *bounds,
            Group::Halves(_, _, bounds) => *bounds,
        }
    }

    /// These segments, near ones beside each other where they follow each other. More than so many are halved.
    pub fn of(alloc: Global, edges: &[LatticeEdge], most: usize) -> Result<Self, AllocError>
        ensures bounded { IfOk result (λ g. IsBounded g) }
        ensures all { IfOk result (λ g. (x : Edge) → StandsIn x edges.now → StandsIn x (edges_in g)) }
    {
        if edges.len() < 2 || edges.len() <= most {
            return Ok(Group::few(Vec::from_slice(alloc, edges)?));
        }
        let (low, high) = edges.split_at(edges.len() / 2);
        let low = Group::of(alloc, low, most)?;
        let high = Group::of(alloc, high, most)?;
        Group::halves(alloc, low, high)
    }

    /// Those that wait still.
    pub fn waiting(&self, alloc: Global, todo: &Worklist) -> Result<Self, AllocError>
        ensures bounded { IfOk result (λ g. IsBounded g) }
        ensures kept { IfOk result (λ g. (x : Edge) → StandsIn x (edges_in self.now) → pos 0 <ℤ exactly x todo.now
            → StandsIn x (edges_in g)) }
    {
        match self {
            Group::Few(edges, _) => Ok(Group::few(todo.waiting(alloc, edges)?)),
            Group::Halves(low, high, _) => {
                let low = low.waiting(alloc, todo)?;
                let high = high.waiting(alloc, todo)?;
                Group::halves(alloc, low, high)
            }
        }
    }

    /// Leaves those out that wait no more, in all parts that reach a box. In other parts they stay.
    pub fn prune(
        &mut self,
        alloc: Global,
        todo: &Worklist,
        reached: BoundingBox,
    ) -> Result<(), AllocError>
        requires { IsBounded self.old }
        ensures bounded { OnOk result (IsBounded self.new) }
        ensures kept { OnOk result (KeepsWaiting todo.now (edges_in self.old) (edges_in self.new)) }
    {
        match self {
            Group::Few(edges, bounds) => {
                if !is_beside(reached, *bounds) {
                    *self = Group::few(todo.waiting(alloc, edges)?);
                }
                Ok(())
            }
            Group::Halves(low, high, bounds) => {
                if is_beside(reached, *bounds) {
                    return Ok(());
                }
                low.prune(alloc, todo, reached)?;
                high.prune(alloc, todo, reached)?;
                *bounds = union(low.bounds(), high.bounds());
                Ok(())
            }
        }
    }

    /// Notes the pairs that meet of few segments, which these bounds hold, and those of the group.
    fn find_few(
        &self,
        xs: &[LatticeEdge],
        bounds: BoundingBox,
        search: &mut Search,
    ) -> Result<(), AllocError>
        requires bounded { IsBounded self.now }
        requires within { AreWithin bounds xs.now }
        ensures { OnOk result (Searches xs.now (edges_in self.now) search.old search.new) }
    {
        search.count(1);
        if search.is_over || is_beside(bounds, self.bounds()) {
            return Ok(());
        }
        match self {
            Group::Few(ys, _) => search.find_between(xs, ys, bounds),
            Group::Halves(low, high, _) => {
                low.find_few(xs, bounds, search)?;
                high.find_few(xs, bounds, search)
            }
        }
    }

    /// Notes the pairs that meet of this group and another.
    pub fn find_between(&self, other: &Group, search: &mut Search) -> Result<(), AllocError>
        requires bounded { IsBounded self.now }
        requires other { IsBounded other.now }
        ensures { OnOk result (Searches (edges_in self.now) (edges_in other.now) search.old search.new) }
    {
        search.count(1);
        if search.is_over || is_beside(self.bounds(), other.bounds()) {
            return Ok(());
        }
        match self {
            Group::Few(xs, bounds) => other.find_few(xs, *bounds, search),
            Group::Halves(low, high, _) => match other {
                Group::Few(_, _) => {
                    low.find_between(other, search)?;
                    high.find_between(other, search)
                }
                Group::Halves(west, east, _) => {
                    low.find_between(west, search)?;
                    low.find_between(east, search)?;
                    high.find_between(west, search)?;
                    high.find_between(east, search)
                }
            },
        }
    }

    /// Notes the pairs of the group that meet.
    pub fn find_within(&self, search: &mut Search) -> Result<(), AllocError>
        requires { IsBounded self.now }
        ensures { OnOk result (Searches (edges_in self.now) (edges_in self.now) search.old search.new) }
    {
        match self {
            Group::Few(xs, _) => search.find_within(xs),
            Group::Halves(low, high, _) => {
                low.find_within(search)?;
                high.find_within(search)?;
                low.find_between(high, search)
            }
        }
    }
}
