//! The first pass: splits in hand, on a leash where a run seems to begin. What the leash holds back gets another order,
//! and all is begun anew. It need not leave the segments clear of each other; what is left to split is found by the
//! second pass, whatever was split here.

ghost use Rattle.std.specs.Prelude.{◌≡◌, pos, ◌<ℤ◌, IfErr, IfOk, IfSome, OnOk};
ghost use Rattle.mesh_lattice.specs.Clean.{IsProper};
ghost use Rattle.mesh_lattice.specs.Split.{Meets};
ghost use Rattle.mesh_split.specs.Counting.{CountsAtMost, IsReason};
ghost use Rattle.mesh_split.specs.Growth.{pieces_of};
ghost use Rattle.mesh_store.specs.Steps.{AllClear, AreAmong, IsPile, KeepsPile, StandOnce, exactly};

use crate::count::{SplitCount, SplitError};
use crate::hints::Hints;
use crate::leash::Leash;
use crate::split_log::SplitLog;
use crate::steps::Splitter;
use crate::tuning::{DRAWS, REHEARSALS};
use crate::witnesses::forward;
use mesh_lattice::exact::meeting;
use mesh_lattice::lattice::LatticeEdge;
use mesh_store::store::Store;
use mesh_store::tree::Meeting;
use std::alloc::{AllocError, Global};

/// A segment, and one that it meets.
type Pair = (LatticeEdge, Meeting);

/// Makes the segment with these ends live, if it waits, whatever it meets, and notes what it meets.
fn take_one(
    splitter: &mut Splitter,
    wanted: LatticeEdge,
    hints: &mut Hints,
    leash: &Leash,
) -> Result<(), AllocError>
    requires { StandOnce splitter.old.todo splitter.old.live }
    ensures once { OnOk result (StandOnce splitter.new.todo splitter.new.live) }
    ensures kept { OnOk result (KeepsPile splitter.old.log splitter.old.todo splitter.old.live
        splitter.new.log splitter.new.todo splitter.new.live) }
{
    if !splitter.todo.has(wanted) {
        return Ok(());
    }
    let s = splitter.todo.remove(wanted);
    let met = splitter.live.meetings(s.0)?;
    hints.note(s.0, &met, leash)?;
    splitter.live.insert(s)?;
    Ok(())
}

/// The same for several.
fn take_up(
    splitter: &mut Splitter,
    wanted: &[LatticeEdge],
    hints: &mut Hints,
    leash: &Leash,
) -> Result<(), AllocError>
    requires { StandOnce splitter.old.todo splitter.old.live }
    ensures { OnOk result (KeepsPile splitter.old.log splitter.old.todo splitter.old.live
        splitter.new.log splitter.new.todo splitter.new.live) }
{
    for e in wanted {
        take_one(splitter, *e, hints, leash)?;
    }
    Ok(())
}

/// The next hint that is true and that the leash allows: both segments live, and they meet.
fn next(
    live: &Store,
    log: &SplitLog,
    hints: &mut Hints,
    leash: &mut Leash,
) -> Result<Option<Pair>, AllocError>
    ensures first { IfOk result (λ o. IfSome o (λ p. pos 0 <ℤ exactly p.0 live.now)) }
    ensures second { IfOk result (λ o. IfSome o (λ p. pos 0 <ℤ exactly p.1.0 live.now)) }
    ensures meets { IfOk result (λ o. IfSome o (λ p. Meets p.0 p.1.0 p.1.1)) }
{
    for _hint in 0..usize::MAX {
        let Some((first, second)) = hints.pop() else {
            return Ok(None);
        };
        if live.has(first) && live.has(second) {
            if let Some(at) = meeting(first, second) {
                if leash.allows(first, (second, at), log)? {
                    return Ok(Some((first, (second, at))));
                }
            }
        }
    }
    Ok(None)
}

/// The pieces of two segments that are split.
pub fn pieces(e: LatticeEdge, m: Meeting) -> [LatticeEdge; 4]
    ensures { result ≡ pieces_of e m }
{
    let (f, c) = m;
    [
        forward((e.0, c)),
        forward((c, e.1)),
        forward((f.0, c)),
        forward((c, f.1)),
    ]
}

/// Splits the noted ones of the edges alone, in the order that was drawn. The others wait.
fn split_noted(
    alloc: Global,
    edges: &[LatticeEdge],
    noted: &[LatticeEdge],
    leash: &mut Leash,
    count: &mut SplitCount,
) -> Result<Splitter, SplitError>
    requires { IsProper edges.now }
    ensures pile { IfOk result (λ s. IsPile edges.now s.log s.todo s.live) }
    ensures same { OnOk result (count.new ≡ count.old) }
    ensures counted { CountsAtMost 1 edges.now count.old count.new }
    ensures refused { IfErr result (λ e. IsReason e count.new) }
{
    let mut splitter = Splitter::of_edges(alloc, edges, edges)?;
    let mut hints = Hints::new(alloc);
    take_up(&mut splitter, noted, &mut hints, leash)?;
    for _split in 0..usize::MAX {
        let Some((first, m)) = next(&splitter.live, &splitter.log, &mut hints, leash)? else {
            return Ok(splitter);
        };
        splitter.split_live(first, m)?;
        leash.learn(&splitter.log)?;
        count.check(&splitter.log)?;
        take_up(&mut splitter, &pieces(first, m), &mut hints, leash)?;
    }
    Ok(splitter)
}

/// Those of the edges that are noted, the lesser end first.
fn noted_of(
    alloc: Global,
    edges: &[LatticeEdge],
    leash: &Leash,
) -> Result<Vec<LatticeEdge>, AllocError>
    ensures { IfOk result (λ noted. AreAmong noted.items edges.now) }
{
    let mut noted = Vec::new(alloc);
    for e in edges {
        let e = forward(*e);
        if leash.has_noted(e) {
            noted.push(e)?;
        }
    }
    Ok(noted)
}

/// Splits the noted edges by themselves, and draws the order of those anew whose splits were held back. Answers whether
/// there were any.
fn rehearse_once(
    alloc: Global,
    noted: &[LatticeEdge],
    leash: &mut Leash,
    count: &mut SplitCount,
) -> Result<bool, SplitError>
    requires { IsProper noted.now }
    ensures counted { CountsAtMost 1 noted.now count.old count.new }
    ensures refused { IfErr result (λ e. IsReason e count.new) }
{
    let splitter = split_noted(alloc, noted, noted, leash, count)?;
    let has_held = leash.has_held();
    count.add(&splitter.log)?;
    leash.draw(&splitter.log)?;
    Ok(has_held)
}

/// The same until no split is held back, or often enough.
fn rehearse(
    alloc: Global,
    noted: &[LatticeEdge],
    leash: &mut Leash,
    count: &mut SplitCount,
) -> Result<(), SplitError>
    requires { IsProper noted.now }
    ensures counted { CountsAtMost 3 noted.now count.old count.new }
    ensures refused { IfErr result (λ e. IsReason e count.new) }
{
    for _rehearsal in 0..REHEARSALS {
        if !rehearse_once(alloc, noted, leash, count)? {
            return Ok(());
        }
    }
    Ok(())
}

/// Splits the noted edges, and then all in hand. What the leash holds back, and all with it, waits to be tested.
fn attempt(
    alloc: Global,
    edges: &[LatticeEdge],
    noted: &[LatticeEdge],
    leash: &mut Leash,
    count: &mut SplitCount,
) -> Result<Splitter, SplitError>
    requires { IsProper edges.now }
    ensures pile { IfOk result (λ s. IsPile edges.now s.log s.todo s.live) }
    ensures clear { IfOk result (λ s. AllClear s.live) }
    ensures same { OnOk result (count.new ≡ count.old) }
    ensures counted { CountsAtMost 1 edges.now count.old count.new }
    ensures refused { IfErr result (λ e. IsReason e count.new) }
{
    let mut splitter = split_noted(alloc, edges, noted, leash, count)?;
    let mut is_clear = splitter.live.is_empty();
    while let Some(s) = splitter.todo.pop() {
        is_clear = splitter.settle_leashed(s, leash, is_clear)?;
        count.check(&splitter.log)?;
    }
    if is_clear {
        return Ok(splitter);
    }
    leash.note_neighbours(&splitter.live, &splitter.log)?;
    let again = splitter.again(alloc)?;
    Ok(again)
}

/// Another attempt, in an order in which the noted edges were split by themselves.
fn attempt_anew(
    alloc: Global,
    edges: &[LatticeEdge],
    noted: &[LatticeEdge],
    leash: &mut Leash,
    count: &mut SplitCount,
) -> Result<Splitter, SplitError>
    requires proper { IsProper edges.now }
    requires among { AreAmong noted.now edges.now }
    ensures pile { IfOk result (λ s. IsPile edges.now s.log s.todo s.live) }
    ensures clear { IfOk result (λ s. AllClear s.live) }
    ensures counted { CountsAtMost 4 edges.now count.old count.new }
    ensures kept { OnOk result (CountsAtMost 3 edges.now count.old count.new) }
    ensures refused { IfErr result (λ e. IsReason e count.new) }
{
    rehearse(alloc, noted, leash, count)?;
    attempt(alloc, edges, noted, leash, count)
}

/// The segments that wait for the second pass. The splits of the attempts that were given up are counted on.
pub fn first_pass(
    alloc: Global,
    edges: &[LatticeEdge],
    count: &mut SplitCount,
) -> Result<Splitter, SplitError>
    requires { IsProper edges.now }
    ensures pile { IfOk result (λ s. IsPile edges.now s.log s.todo s.live) }
    ensures clear { IfOk result (λ s. AllClear s.live) }
    ensures counted { CountsAtMost 45 edges.now count.old count.new }
    ensures kept { OnOk result (CountsAtMost 44 edges.now count.old count.new) }
    ensures refused { IfErr result (λ e. IsReason e count.new) }
{
    let mut leash = Leash::new(alloc);
    let mut splitter = attempt(alloc, edges, &[], &mut leash, count)?;
    for _draw in 0..DRAWS {
        if !leash.wants_another(&splitter.log) {
            return Ok(splitter);
        }
        count.add(&splitter.log)?;
        leash.draw(&splitter.log)?;
        let noted = noted_of(alloc, edges, &leash)?;
        splitter = attempt_anew(alloc, edges, &noted, &mut leash, count)?;
    }
    Ok(splitter)
}
