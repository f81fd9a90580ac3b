//! Places among marks on an axis, and lists by such places. Whatever the marks are, a greater number has no lesser
//! place.

ghost use Rattle.std.specs.Prelude.{◌≡◌, ℕ, ◌+◌, ◌-◌, ◌<◌, ◌≤◌, ◌≤ℤ◌, true, [], ◌∷◌, ◌++◌, length};
ghost use Rattle.std.specs.Prelude.{slice_index_or, int_le, IfOk, OnOk, OnErr, Vec};
ghost use Rattle.std.specs.declared.alloc.Global.{Global};
ghost use Rattle.mesh_lattice.specs.Lists.{list_at, OthersStay};
ghost use Rattle.mesh_lattice.specs.Marks.{place, AreRising, IsPutTo};

use std::alloc::{AllocError, Global};

/// A coordinate at which one part of an axis ends and the next begins.
#[derive(Debug, Copy, Clone)]
pub struct Mark {
    /// The coordinate, on whatever grid.
    pub at: i64,
}

fn is_at_most(m: Mark, q: Mark) -> bool
    ensures { result ≡ int_le m.at q.at }
{
    m.at <= q.at
}

/// How many of the marks are not above a number.
pub fn place(marks: &[Mark], q: Mark) -> usize
    requires { AreRising marks.now }
    ensures value { result ≡ place marks.now q.at }
    ensures bound { result ≤ length marks.now }
{
    marks.partition_point(
        |m: &Mark| -> bool
            ensures { result ≡ int_le m.now.at q.at }
        { is_at_most(*m, q) },
    )
}

/// Whether a mark is not below the last one.
fn goes_on(marks: &[Mark], m: Mark) -> bool
    ensures { result ≡ true → (d : Mark) → 0 < length marks.now
        → (slice_index_or marks.now (length marks.now - 1) d).at ≤ℤ m.at }
{
    if marks.is_empty() {
        return true;
    }
    is_at_most(marks[marks.len() - 1], m)
}

/// Adds a mark, unless it is below the last one.
fn push_rising(marks: &mut Vec<Mark>, m: Mark) -> Result<(), AllocError>
    requires { AreRising marks.old.items }
    ensures rising { OnOk result (AreRising marks.new.items) }
    ensures len { OnOk result (length marks.new.items ≤ length marks.old.items + 1) }
{
    if !goes_on(marks, m) {
        return Ok(());
    }
    marks.push(m)?;
    Ok(())
}

/// Marks at coordinates, in order. It fails only where memory is refused.
pub fn marks_along(alloc: Global, mut coordinates: Vec<i64>) -> Result<Vec<Mark>, AllocError>
    ensures { IfOk result (λ v. AreRising v.items) }
{
    coordinates.sort_unstable();
    let mut marks = Vec::with_capacity(alloc, coordinates.len())?;
    for at in &coordinates {
        push_rising(&mut marks, Mark { at: *at })?;
    }
    Ok(marks)
}

/// At most so many of the marks, evenly taken. It fails only where memory is refused.
pub fn thinned(alloc: Global, marks: &[Mark], most: usize) -> Result<Vec<Mark>, AllocError>
    ensures rising { IfOk result (λ v. AreRising v.items) }
    ensures most { IfOk result (λ v. length v.items ≤ most) }
{
    let step = marks.len() / most.max(1) + 1;
    let mut left = Vec::new(alloc);
    for (i, m) in marks.iter().enumerate() {
        if left.len() < most && i % step == step / 2 {
            push_rising(&mut left, *m)?;
        }
    }
    Ok(left)
}

/// So many lists without an element. It fails only where memory is refused.
pub fn empty_lists<T: Drop>(alloc: Global, count: usize) -> Result<Vec<Vec<T>>, AllocError>
    ensures len { IfOk result (λ v. length v.items ≡ count) }
    ensures empty { IfOk result (λ v. (i : ℕ) (d : Vec T Global) → i < count → list_at v.items i d ≡ []) }
{
    let mut lists = Vec::with_capacity(alloc, count)?;
    for _made in 0..count {
        lists.push(Vec::new(alloc))?;
    }
    Ok(lists)
}

/// Adds an element at the end of one list.
pub fn push_to<T: Drop>(lists: &mut Vec<Vec<T>>, i: usize, x: T) -> Result<(), AllocError>
    requires { i < length lists.old.items }
    ensures len { length lists.new.items ≡ length lists.old.items }
    ensures at { OnOk result ((d : Vec T Global)
        → list_at lists.new.items i d ≡ list_at lists.old.items i d ++ x ∷ []) }
    ensures others { OthersStay lists.old.items lists.new.items i }
    ensures err { OnErr result ((d : Vec T Global) → list_at lists.new.items i d ≡ list_at lists.old.items i d) }
{
    lists[i].push(x)?;
    Ok(())
}

/// Adds an element at the end of each list from `first` to `last`. Where memory is refused, the first ones may have it.
pub fn put_to<T: Copy>(
    lists: &mut Vec<Vec<T>>,
    first: usize,
    last: usize,
    x: T,
) -> Result<(), AllocError>
    requires order { first ≤ last }
    requires within { last < length lists.old.items }
    ensures ok { OnOk result (IsPutTo lists.old.items lists.new.items first (last + 1) x) }
    ensures some { (end : ℕ) × IsPutTo lists.old.items lists.new.items first end x }
{
    for i in first..last + 1 {
        push_to(lists, i, x)?;
    }
    Ok(())
}
