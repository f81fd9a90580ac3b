//! Splits in rounds. In each round the fresh segments are held against all others at once, the pairs that meet are
//! split one by one, and the pieces are fresh in the next. Where a round finds no pair, all segments are clear of each
//! other: no second pass is needed. The rounds are given up where many more tests are made than pairs are found, where
//! many pairs are likely to meet anew, and where a split leads far away.

ghost use Rattle.std.specs.Prelude.{◌≡◌, ◌⊎◌, ◌^◌, ◌++◌, ◌≤ℤ◌, true, false, List, [], ◌∷◌, pos};
ghost use Rattle.std.specs.Prelude.{IfErr, IfOk, IfSome, OnErr, OnOk};
ghost use Rattle.mesh_plane.specs.Plane.{Edge};
ghost use Rattle.mesh_lattice.specs.Clean.{IsProper};
ghost use Rattle.mesh_lattice.specs.Split.{IsLegal};
ghost use Rattle.mesh_split.specs.Counting.{CountsAmong, CountsAtMost, IsReason, IsWithinLimit};
ghost use Rattle.mesh_store.specs.Cells.{StandsIn};
ghost use Rattle.mesh_rounds.specs.Private.Groups.{
  all_in,
  edges_in,
  noted_in,
  AreBounded,
  IsBounded,
  KeepsWaiting,
  Searches,
};
ghost use Rattle.mesh_split.specs.Growth.{Grows, Waits};
ghost use Rattle.mesh_rounds.specs.Private.Rounds.{AreClearBeside, AreListed, IsHeld, IsRound, Keeps, keyed_edges};
ghost use Rattle.mesh_rounds.specs.Private.Rounds.{EndsRound};
ghost use Rattle.mesh_split.specs.declared.count.SplitCount.{SplitCount};
ghost use Rattle.mesh_store.specs.Steps.{IsPile, IsSettled, KeepsPile, total_weight};

use crate::curve::{follow_each_other, place};
use crate::groups::{Group, Pair, Search};
use crate::pieces::Paths;
use crate::tuning::{
    FEW_EDGES, FEW_PAIRS, LAST_OF_BLOCK, LATER_TESTS, MANY_PAIRS, MANY_TIMES, MORE_TESTS,
    MOST_OF_A_GROUP, MOST_TURNS, NEAR_BOXES, NEAR_BOXES_A_PAIR, PART_OF_A_ROUND, ROUNDS,
    SAMPLED_EDGES, SEGMENTS_A_PAIR, SOME_EDGES, STRIDE, TESTS,
};
use mesh_lattice::exact::{meeting, same_edge};
use mesh_lattice::lattice::LatticeEdge;
use mesh_lattice::samples::sample;
use mesh_split::count::{SplitCount, SplitError};
use mesh_split::first_pass::pieces;
use mesh_split::leash::is_delicate;
use mesh_split::steps::{Settled, Splitter};
use mesh_store::bounding::{bounding_box, is_beside};
use mesh_store::worklist::Worklist;
use std::alloc::{AllocError, Global};
use std::mem::replace;

/// The state between two rounds.
#[derive(Drop)]
pub struct Rounds {
    pub splitter: Splitter,
    /// Segments that were held against each other, in groups.
    pub groups: Vec<Group>,
    /// Those that were not.
    pub fresh: Vec<LatticeEdge>,
    /// So many pairs the next round may find.
    most_pairs: usize,
    /// Whether pairs are split in the other order.
    is_scattered: bool,
}

/// The fresh segments of a round in a group, and the pairs that meet.
#[derive(Drop)]
pub struct Held {
    pub group: Group,
    pub pairs: Vec<Pair>,
}

/// Whether rounds serve for these edges: not for fewer than twenty, always for twenty to ninety-nine, and for more where
/// of those whose boxes reach that of a sampled edge not too few meet it. Of long slanted edges side by side, as of a
/// hatch, few do; a tree of cuts along them parts these better than boxes.
fn serve(alloc: Global, edges: &[LatticeEdge]) -> Result<bool, AllocError> {
    if edges.len() < FEW_EDGES {
        return Ok(false);
    }
    if edges.len() < SOME_EDGES {
        return Ok(true);
    }
    let mut tests: usize = 0;
    let mut most: usize = 0;
    for e in &sample(alloc, edges, SAMPLED_EDGES)? {
        let bounds = bounding_box(*e);
        most = most.saturating_add(NEAR_BOXES);
        for f in edges {
            if !is_beside(bounds, *f) {
                tests = tests.saturating_add(1);
                if meeting(*e, *f).is_some() {
                    most = most.saturating_add(NEAR_BOXES_A_PAIR);
                }
            }
        }
    }
    Ok(tests <= most)
}

/// Segments with their places.
fn placed(alloc: Global, edges: &[LatticeEdge]) -> Result<Vec<(u64, LatticeEdge)>, AllocError>
    ensures { IfOk result (λ v. Keeps edges.now (keyed_edges v.items)) }
{
    let mut placed = Vec::with_capacity(alloc, edges.len())?;
    for e in edges {
        placed.push((place(*e), *e))?;
    }
    Ok(placed)
}

/// Whether this is the last segment of a list.
fn is_last(edges: &[LatticeEdge], e: LatticeEdge) -> bool
    ensures { result ≡ true → StandsIn e edges.now }
{
    let count = edges.len();
    0 < count && same_edge(edges[count - 1], e)
}

/// The segments alone, each once where those that are the same follow each other.
fn distinct(alloc: Global, placed: &[(u64, LatticeEdge)]) -> Result<Vec<LatticeEdge>, AllocError>
    ensures { IfOk result (λ v. Keeps (keyed_edges placed.now) v.items) }
{
    let mut edges: Vec<LatticeEdge> = Vec::with_capacity(alloc, placed.len())?;
    for k in placed {
        if !is_last(&edges, k.1) {
            edges.push(k.1)?;
        }
    }
    Ok(edges)
}

/// Segments in an order in which near ones follow each other, mostly: as they stand where they do so as those of contours,
/// else along a curve that fills the plane, each once where those that are the same follow each other there.
fn arranged(alloc: Global, edges: Vec<LatticeEdge>) -> Result<Vec<LatticeEdge>, AllocError>
    ensures { IfOk result (λ v. Keeps edges.items v.items) }
{
    if follow_each_other(&edges) {
        return Ok(edges);
    }
    let mut placed = placed(alloc, &edges)?;
    drop(edges);
    placed.sort_unstable_by_key(|k| k.0);
    distinct(alloc, &placed)
}

/// Adds a group to others.
fn add_group(groups: &mut Vec<Group>, group: Group) -> Result<(), AllocError>
    ensures { OnOk result (groups.new.items ≡ groups.old.items ++ group ∷ []) }
{
    groups.push(group)?;
    Ok(())
}

/// Groups of those that wait still.
fn waiting_groups(
    alloc: Global,
    todo: &Worklist,
    groups: &[Group],
) -> Result<Vec<Group>, AllocError>
    requires { AreBounded groups.now }
    ensures bounded { IfOk result (λ v. AreBounded v.items) }
    ensures kept { IfOk result (λ v. (x : Edge) → StandsIn x (all_in groups.now) → Waits x todo.now
        → StandsIn x (all_in v.items)) }
{
    let mut kept = Vec::with_capacity(alloc, groups.len())?;
    for group in groups {
        kept.push(group.waiting(alloc, todo)?)?;
    }
    Ok(kept)
}

/// A group without segments that wait no more, about the ends of some pieces: each end of a segment that was split is
/// one of these.
fn pruned_about(
    alloc: Global,
    todo: &Worklist,
    group: Group,
    pieces: &[LatticeEdge],
) -> Result<Group, AllocError>
    requires { IsBounded group }
    ensures bounded { IfOk result (λ g. IsBounded g) }
    ensures kept { IfOk result (λ g. KeepsWaiting todo.now (edges_in group) (edges_in g)) }
{
    let mut left = group;
    for piece in pieces {
        left.prune(alloc, todo, (piece.0, piece.0))?;
        left.prune(alloc, todo, (piece.1, piece.1))?;
    }
    Ok(left)
}

/// Groups without such segments.
fn all_pruned_about(
    alloc: Global,
    todo: &Worklist,
    groups: Vec<Group>,
    pieces: &[LatticeEdge],
) -> Result<Vec<Group>, AllocError>
    requires { AreBounded groups.items }
    ensures bounded { IfOk result (λ v. AreBounded v.items) }
    ensures kept { IfOk result (λ v. KeepsWaiting todo.now (all_in groups.items) (all_in v.items)) }
{
    let mut groups = groups;
    let Some(last) = groups.pop() else {
        return Ok(groups);
    };
    let mut left = all_pruned_about(alloc, todo, groups, pieces)?;
    add_group(&mut left, pruned_about(alloc, todo, last, pieces)?)?;
    Ok(left)
}

/// Notes the pairs that meet of a group and others.
fn find_beside(group: &Group, groups: &[Group], search: &mut Search) -> Result<(), AllocError>
    requires bounded { IsBounded group.now }
    requires all_bounded { AreBounded groups.now }
    ensures { OnOk result (Searches (edges_in group.now) (all_in groups.now) search.old search.new) }
{
    let Some((other, others)) = groups.split_first() else {
        return Ok(());
    };
    group.find_between(other, search)?;
    find_beside(group, others, search)
}

/// The segments of pairs.
fn noted(alloc: Global, pairs: &[Pair]) -> Result<Vec<LatticeEdge>, AllocError>
    ensures { IfOk result (λ v. Keeps (noted_in pairs.now) v.items) }
{
    let mut noted = Vec::with_capacity(alloc, pairs.len().saturating_mul(2))?;
    for pair in pairs {
        noted.push(pair.0)?;
        noted.push(pair.1.0)?;
    }
    Ok(noted)
}

/// Whether more than an eighth of the pairs are delicate.
fn are_delicate(pairs: &[Pair]) -> bool {
    let delicate = pairs.iter().filter(|k| is_delicate(k.0, k.1)).count();
    pairs.len() / PART_OF_A_ROUND < delicate
}

/// Splits what a pair has become where that meets, and lists the pieces where they are wanted.
fn split_pair(
    splitter: &mut Splitter,
    paths: &mut Paths,
    pair: Pair,
    lists: bool,
    born: &mut Vec<LatticeEdge>,
) -> Result<(), AllocError>
    requires none_lives { splitter.old.live ≡ [] }
    requires room { total_weight splitter.old.todo splitter.old.live ≤ℤ pos (2 ^ 97) }
    ensures kept { OnOk result (KeepsPile splitter.old.log splitter.old.todo splitter.old.live
        splitter.new.log splitter.new.todo splitter.new.live) }
    ensures none_lives { OnOk result (splitter.new.live ≡ []) }
    ensures grows { OnOk result (lists ≡ true → Grows splitter.old.todo splitter.new.todo born.new.items) }
    ensures listed { OnOk result (Keeps born.old.items born.new.items) }
{
    let Some(found) = paths.find(&splitter.todo, pair) else {
        return Ok(());
    };
    splitter.split_waiting(found.first, found.meeting)?;
    paths.note(pair, found)?;
    if !lists {
        return Ok(());
    }
    let pieces = pieces(found.first, found.meeting);
    born.push(pieces[0])?;
    born.push(pieces[1])?;
    born.push(pieces[2])?;
    born.push(pieces[3])?;
    Ok(())
}

/// In the other order, the place of the pair whose turn it is, of so many. In blocks that are turned about, near segments
/// still follow each other in memory. A last block that is not full stays as it is.
fn scattered(count: usize, turn: usize) -> usize {
    if count < MANY_PAIRS {
        return turn.wrapping_mul(STRIDE) % count.max(1);
    }
    if count <= turn | LAST_OF_BLOCK {
        return turn;
    }
    turn ^ LAST_OF_BLOCK
}

/// The pair whose turn it is. One that has none is found again in the next round.
fn pair_at(pairs: &[Pair], turn: usize, is_scattered: bool) -> Option<Pair> {
    let place = if is_scattered {
        scattered(pairs.len(), turn)
    } else {
        turn
    };
    pairs.get(place).copied()
}

/// Splits all pairs, and lists the pieces where they are wanted. Answers none where that led far away.
fn split_pairs(
    alloc: Global,
    edges: &[LatticeEdge],
    splitter: &mut Splitter,
    pairs: &[Pair],
    is_scattered: bool,
    lists: bool,
    count: &mut SplitCount,
) -> Result<Option<Vec<LatticeEdge>>, SplitError>
    requires pile { IsPile edges.now splitter.old.log splitter.old.todo splitter.old.live }
    requires none_lives { splitter.old.live ≡ [] }
    ensures pile { OnOk result (IsPile edges.now splitter.new.log splitter.new.todo splitter.new.live) }
    ensures none_lives { OnOk result (splitter.new.live ≡ []) }
    ensures grows { IfOk result (λ o. IfSome o (λ born. lists ≡ true
        → Grows splitter.old.todo splitter.new.todo born.items)) }
    ensures same { OnOk result (count.new ≡ count.old) }
    ensures counted { CountsAtMost 1 edges.now count.old count.new }
    ensures refused { IfErr result (λ e. IsReason e count.new) }
{
    // Read, so that it is known to fit: a return before any attempt counts none.
    let _made = count.made;
    splitter
        .todo
        .reserve(pairs.len().saturating_mul(SEGMENTS_A_PAIR))?;
    let mut paths = Paths::new(alloc);
    let mut born = Vec::new(alloc);
    for turn in 0..pairs.len() {
        let Some(pair) = pair_at(pairs, turn, is_scattered) else {
            return Ok(Some(born));
        };
        split_pair(splitter, &mut paths, pair, lists, &mut born)?;
        count.check(&splitter.log)?;
        if paths.has_strayed {
            return Ok(None);
        }
    }
    Ok(Some(born))
}

/// Those of the pieces and of the segments of pairs that wait.
fn fresh(
    alloc: Global,
    todo: &Worklist,
    pairs: &[Pair],
    born: &[LatticeEdge],
) -> Result<Vec<LatticeEdge>, AllocError>
    ensures born { IfOk result (λ v. (x : Edge) → Waits x todo.now → StandsIn x born.now → StandsIn x v.items) }
    ensures noted { IfOk result (λ v. (x : Edge) → Waits x todo.now → StandsIn x (noted_in pairs.now)
        → StandsIn x v.items) }
{
    let mut all = noted(alloc, pairs)?;
    for e in born {
        all.push(*e)?;
    }
    todo.waiting(alloc, &all)
}

impl Rounds {
    /// All segments are fresh.
    fn new(alloc: Global, edges: &[LatticeEdge], is_scattered: bool) -> Result<Self, AllocError>
        requires { IsProper edges.now }
        ensures { IfOk result (λ r. IsRound edges.now r) }
    {
        let mut splitter = Splitter::of_edges(alloc, edges, &[])?;
        splitter.todo.forget_order(alloc);
        let fresh = splitter.todo.ends(alloc)?;
        Ok(Rounds {
            splitter,
            groups: Vec::new(alloc),
            fresh,
            most_pairs: usize::MAX,
            is_scattered,
        })
    }

    /// How many segments a part of a group may have that is not halved.
    fn most_of_a_group(&self) -> usize {
        if self.fresh.len().saturating_mul(MANY_TIMES) < self.splitter.todo.len() {
            return 1;
        }
        MOST_OF_A_GROUP
    }

    /// The fresh segments as a group, and the pairs of one of them and any that meet. Answers none where too many tests
    /// would be made, where too many pairs are left, or, in the first round, where too many of them are delicate. The
    /// list of fresh segments is given up.
    fn hold(&mut self, alloc: Global) -> Result<Option<Held>, AllocError>
        requires bounded { AreBounded self.old.groups.items }
        requires listed { AreListed self.old.splitter.todo self.old.fresh.items (all_in self.old.groups.items) }
        requires clear { AreClearBeside self.old.splitter.todo self.old.fresh.items }
        ensures held { IfOk result (λ o. IfSome o (λ h. IsHeld self.old h)) }
        ensures splitter { self.new.splitter ≡ self.old.splitter }
        ensures groups { self.new.groups ≡ self.old.groups }
    {
        let is_first = self.splitter.log.len() == 0;
        let tests = if is_first { TESTS } else { LATER_TESTS };
        let most_of_a_group = self.most_of_a_group();
        let edges = arranged(alloc, replace(&mut self.fresh, Vec::new(alloc)))?;
        let group = Group::of(alloc, &edges, most_of_a_group)?;
        let most = edges.len().saturating_add(MORE_TESTS).saturating_mul(tests);
        drop(edges);
        let mut search = Search::new(alloc, most);
        group.find_within(&mut search)?;
        find_beside(&group, &self.groups, &mut search)?;
        if search.is_over {
            return Ok(None);
        }
        let pairs = search.pairs;
        if self.most_pairs < pairs.len() {
            return Ok(None);
        }
        if is_first && are_delicate(&pairs) {
            return Ok(None);
        }
        Ok(Some(Held { group, pairs }))
    }

    /// Whether only some segments are fresh in the next round, of so many in this one. Where there are many pairs and no
    /// group yet, nearly all are, and the others are so too from there on.
    fn keeps_some(&self, held: &Held, fresh: usize) -> bool {
        self.groups.len() > 0 || held.pairs.len() < fresh
    }

    /// Adds a group to those that were held against each other; the pieces are fresh, and what else waits of the pairs.
    /// Where it is not wanted that some are kept, all segments are fresh.
    fn close(
        &mut self,
        alloc: Global,
        held: Held,
        keeps_some: bool,
        born: &[LatticeEdge],
    ) -> Result<(), AllocError>
        ensures round { OnOk result (EndsRound held keeps_some born.now self.old self.new) }
        ensures log { self.new.splitter.log ≡ self.old.splitter.log }
    {
        self.most_pairs = (held.pairs.len() / PART_OF_A_ROUND).max(FEW_PAIRS);
        if !keeps_some {
            self.fresh = self.splitter.todo.ends(alloc)?;
            self.groups = Vec::new(alloc);
            return Ok(());
        }
        self.fresh = fresh(alloc, &self.splitter.todo, &held.pairs, born)?;
        add_group(&mut self.groups, held.group)?;
        Ok(())
    }

    /// Leaves those segments out of the groups that wait no more.
    fn prune(&mut self, alloc: Global, born: &[LatticeEdge]) -> Result<(), AllocError>
        requires { AreBounded self.old.groups.items }
        ensures round { OnOk result ((given : List Edge) → IsRound given self.old → IsRound given self.new) }
        ensures log { self.new.splitter.log ≡ self.old.splitter.log }
    {
        if born.len() == 0 {
            return Ok(());
        }
        if self.splitter.todo.len() < born.len().saturating_mul(MANY_TIMES) {
            self.groups = waiting_groups(alloc, &self.splitter.todo, &self.groups)?;
            return Ok(());
        }
        let groups = replace(&mut self.groups, Vec::new(alloc));
        self.groups = all_pruned_about(alloc, &self.splitter.todo, groups, born)?;
        Ok(())
    }

    /// Begins anew, in the other order, where so many rounds were made.
    fn restart(
        &mut self,
        alloc: Global,
        edges: &[LatticeEdge],
        turn: usize,
        count: &mut SplitCount,
    ) -> Result<(), SplitError>
        requires proper { IsProper edges.now }
        requires round { IsRound edges.now self.old }
        ensures round { OnOk result (IsRound edges.now self.new) }
        ensures same { ¬ (turn ≡ 12) → count.new ≡ count.old }
        ensures counted { CountsAtMost 1 edges.now count.old count.new }
        ensures refused { IfErr result (λ e. IsReason e count.new) }
    {
        // Read, as above.
        let _made = count.made;
        if turn != ROUNDS {
            return Ok(());
        }
        count.add(&self.splitter.log)?;
        *self = Rounds::new(alloc, edges, true)?;
        Ok(())
    }

    /// Makes a round. Answers whether others may follow.
    fn go_on(
        &mut self,
        alloc: Global,
        edges: &[LatticeEdge],
        count: &mut SplitCount,
    ) -> Result<bool, SplitError>
        requires { IsRound edges.now self.old }
        ensures kept { IfOk result (λ b. b ≡ true → IsRound edges.now self.new) }
        ensures legal { OnOk result (IsLegal edges.now self.new.splitter.log) }
        ensures same { OnOk result (count.new ≡ count.old) }
        ensures counted { CountsAtMost 1 edges.now count.old count.new }
        ensures refused { IfErr result (λ e. IsReason e count.new) }
    {
        // Read, as above.
        let _made = count.made;
        let fresh = self.fresh.len();
        let Some(held) = self.hold(alloc)? else {
            return Ok(false);
        };
        let some = self.keeps_some(&held, fresh);
        let scattered = self.is_scattered;
        let splitter = &mut self.splitter;
        let Some(born) = split_pairs(alloc, edges, splitter, &held.pairs, scattered, some, count)?
        else {
            return Ok(false);
        };
        self.close(alloc, held, some, &born)?;
        self.prune(alloc, &born)?;
        Ok(true)
    }
}

/// Splits edges in rounds. Answers none where these were given up. The splits are counted on in either case.
pub fn split_in_rounds(
    alloc: Global,
    edges: &[LatticeEdge],
    count: &mut SplitCount,
) -> Result<Option<Settled>, SplitError>
    requires { IsProper edges.now }
    ensures settled { IfOk result (λ o. IfSome o (λ s. IsSettled edges.now s.log s.segments.items)) }
    ensures counted { CountsAtMost 2 edges.now count.old count.new }
    ensures standing { IfOk result (λ o. IfSome o (λ s. CountsAmong 2 edges.now count.old count.new s.log)) }
    ensures within { IfOk result (λ o. IfSome o (λ s. IsWithinLimit count.new)) }
    ensures refused { IfErr result (λ e. IsReason e count.new) }
{
    // Read, as above.
    let _made = count.made;
    if !serve(alloc, edges)? {
        return Ok(None);
    }
    let mut rounds = Rounds::new(alloc, edges, false)?;
    for turn in 0..MOST_TURNS {
        rounds.restart(alloc, edges, turn, count)?;
        if !rounds.go_on(alloc, edges, count)? {
            count.add(&rounds.splitter.log)?;
            return Ok(None);
        }
        let fresh: &[LatticeEdge] = &rounds.fresh;
        if fresh.len() == 0 {
            count.add(&rounds.splitter.log)?;
            drop(rounds.groups);
            let settled = rounds.splitter.into_settled(alloc)?;
            return Ok(Some(settled));
        }
    }
    count.add(&rounds.splitter.log)?;
    Ok(None)
}
