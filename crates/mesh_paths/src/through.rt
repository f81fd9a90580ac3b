//! The paths through each point, in lists by links.

ghost use Rattle.std.specs.Prelude.{◌≡◌, ◌+◌, ◌<◌, false, [], length, IfOk, OnOk};
ghost use Rattle.mesh_paths.specs.Filed.{last_of, pass_of, AreListed, IsPassAdded, IsPassed};

use std::alloc::{AllocError, Global};

/// More passes are refused as memory is.
const MOST_PASSES: usize = u32::MAX as usize - 1;

/// A path through a point, and how many passes are to be looked through after it: the last of them is the one that came
/// before it at the point.
#[derive(Copy, Clone)]
pub struct Pass {
    pub path: u32,
    pub id: u32,
    pub before: u32,
}

/// The paths through each point. A path can stand there more than once.
#[derive(Drop)]
pub struct Through {
    /// For each point one more than the place of its last pass, or 0.
    last: Vec<u32>,
    passes: Vec<Pass>,
}

impl Through {
    /// So many points through which no path leads, and room for more points and for passes.
    pub fn new(
        alloc: Global,
        points: usize,
        more: usize,
        passes: usize,
    ) -> Result<Through, AllocError>
        ensures listed { IfOk result (λ t. AreListed t) }
        ensures points { IfOk result (λ t. length t.last.items ≡ points) }
        ensures passes { IfOk result (λ t. t.passes.items ≡ []) }
    {
        let mut last = Vec::with_capacity(alloc, points.saturating_add(more))?;
        last.resize(points, 0)?;
        Ok(Through {
            last,
            passes: Vec::with_capacity(alloc, passes)?,
        })
    }

    /// Adds a point through which no path leads.
    #[inline]
    pub fn add_point(&mut self) -> Result<(), AllocError>
        requires { AreListed self.old }
        ensures listed { OnOk result (AreListed self.new) }
        ensures points { OnOk result (length self.new.last.items ≡ length self.old.last.items + 1) }
        ensures passes { self.new.passes ≡ self.old.passes }
    {
        self.last.push(0)?;
        Ok(())
    }

    /// How many passes are to be looked through where the paths through a point are sought: the last of them is the first
    /// one. 0 where there is none.
    #[inline]
    pub fn last(&self, id: u32) -> u32
        requires { id < length self.now.last.items }
        ensures { result ≡ last_of self.now id }
    {
        self.last[id as usize]
    }

    /// The pass at a place.
    #[inline]
    pub fn pass(&self, place: u32) -> Pass
        requires { place < length self.now.passes.items }
        ensures { result ≡ pass_of self.now place }
    {
        self.passes[place as usize]
    }

    /// Whether a path leads through a point.
    #[inline]
    pub fn leads(&self, path: u32, id: u32) -> bool
        requires listed { AreListed self.now }
        requires within { id < length self.now.last.items }
        ensures { result ≡ false → IsPassed self.now path id → ⊥ }
    {
        let mut left = self.last[id as usize];
        while left > 0 {
            let pass = self.passes[(left - 1) as usize];
            if pass.path == path {
                return true;
            }
            left = pass.before;
        }
        false
    }

    /// Notes that a path leads through a point.
    #[inline]
    pub fn add(&mut self, id: u32, path: u32) -> Result<(), AllocError>
        requires listed { AreListed self.old }
        requires within { id < length self.old.last.items }
        ensures listed { OnOk result (AreListed self.new) }
        ensures points { OnOk result (length self.new.last.items ≡ length self.old.last.items) }
        ensures added { OnOk result (IsPassAdded self.old self.new id path) }
    {
        let count = self.passes.len();
        if count >= MOST_PASSES {
            return Err(AllocError);
        }
        let before = self.last[id as usize];
        self.passes.push(Pass { path, id, before })?;
        self.last[id as usize] = count as u32 + 1;
        Ok(())
    }
}
