//! Lists that stand end to end in one.

ghost use Rattle.std.specs.Prelude.{◌≡◌, [], ◌∷◌, ◌++◌, OnOk, IfOk, map};
ghost use Rattle.mesh_num.specs.Paths.{paths_of};
ghost use Rattle.mesh_arrays.specs.EndToEnd.{AreEndToEnd, HoldsLists};
ghost use Rattle.mesh_arrays.specs.Failures.{IsRead};
ghost use Rattle.mesh_arrays.specs.Private.Adding.{AddsLists};

use crate::failure::Failure;
use crate::numbers::Flat;
use std::alloc::{AllocError, Global};

/// Lists that stand end to end in one.
#[derive(Drop)]
pub struct FlatLists<T> {
    /// The items of all lists, in order.
    pub all: Vec<T>,
    /// For each list, in order, how many items stand in it and before it.
    pub ends: Vec<usize>,
}

impl<T: Flat> FlatLists<T> {
    /// No lists. Takes no memory.
    pub fn new(alloc: Global) -> Self
        ensures { HoldsLists T.item_of result [] }
    {
        FlatLists {
            all: Vec::new(alloc),
            ends: Vec::new(alloc),
        }
    }

    /// The lists as numbers. It fails only where memory is refused.
    pub fn of(alloc: Global, lists: &[Vec<T::Item>]) -> Result<Self, AllocError>
        ensures { IfOk result (λ flat. HoldsLists T.item_of flat (paths_of lists.now)) }
    {
        let mut flat = Self::new(alloc);
        flat.push_lists(lists)?;
        Ok(flat)
    }

    /// Adds lists. It fails only where memory is refused.
    pub fn push_lists(&mut self, lists: &[Vec<T::Item>]) -> Result<(), AllocError>
        ensures { OnOk result (AddsLists T.item_of self.old self.new (paths_of lists.now)) }
    {
        for list in lists {
            self.push(list)?;
        }
        Ok(())
    }

    fn push(&mut self, list: &[T::Item]) -> Result<(), AllocError>
        ensures { OnOk result (AddsLists T.item_of self.old self.new (list.now ∷ [])) }
    {
        push_items(&mut self.all, list)?;
        self.ends.push(self.all.len())?;
        Ok(())
    }
}

/// Adds items as numbers. It fails only where memory is refused.
fn push_items<T: Flat>(all: &mut Vec<T>, items: &[T::Item]) -> Result<(), AllocError>
    ensures { OnOk result (map T.item_of all.new.items ≡ map T.item_of all.old.items ++ items.now) }
{
    for item in items {
        all.push(T::of(item))?;
    }
    Ok(())
}

/// The lists that stand end to end in `all`; `ends` has for each list, in order, how many items stand in it and before
/// it. `Malformed`: these are no ends of lists: one is less than that before it, or more than there are items, or some
/// items stand behind all lists. `OutOfMemory`: memory was refused. There is no other failure.
pub fn read_lists<T: Flat>(
    alloc: Global,
    all: &[T],
    ends: &[usize],
) -> Result<Vec<Vec<T::Item>>, Failure>
    ensures { IsRead (λ lists. paths_of lists.items)
        (λ lists. AreEndToEnd lists (map T.item_of all.now) ends.now) result }
{
    let mut lists = Vec::new(alloc);
    let mut start = 0;
    for place in ends {
        let end = *place;
        if end < start || all.len() < end {
            return Err(Failure::Malformed);
        }
        lists.push(items(alloc, &all[start..end])?)?;
        start = end;
    }
    if start < all.len() {
        return Err(Failure::Malformed);
    }
    Ok(lists)
}

/// The items that numbers stand for. It fails only where memory is refused.
pub fn items<T: Flat>(alloc: Global, flat: &[T]) -> Result<Vec<T::Item>, AllocError>
    ensures { IfOk result (λ items. items.items ≡ map T.item_of flat.now) }
{
    let mut items = Vec::with_capacity(alloc, flat.len())?;
    for numbers in flat {
        items.push(numbers.item())?;
    }
    Ok(items)
}
