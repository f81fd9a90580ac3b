//! Pieces that meet still after each pair of edges was cut once: rounding moved them together.

ghost use Rattle.std.specs.Prelude.{◌≡◌, ◌<◌, false, List, IfOk, IsTrue, OnOk};
ghost use Rattle.mesh_check.specs.Clear.{IsStretchOf};
ghost use Rattle.mesh_plane.specs.Plane.{Edge};
ghost use Rattle.mesh_pairs.specs.Pairs.{AreFound};
ghost use Rattle.mesh_paths.specs.Paths.{ArePaths};
ghost use Rattle.mesh_paths.specs.Stops.{count_of};
ghost use Rattle.mesh_attempt.specs.Attempts.{AreCut};
ghost use Rattle.mesh_clear.specs.AllClear.{AreAllClear};

use mesh_anew::ends::push_at_ends;
use mesh_anew::neighbours::Neighbours;
use mesh_attempt::attempt::CutEdges;
use mesh_check::comparing::{Stretch, compare, whole};
use mesh_clear::check::{NO_PROGRESS, Progress, are_all_clear};
use mesh_clear::doubts::{Seen, doubtful_pairs, doubtful_pairs_since};
use mesh_meeting::meeting::any_meeting;
use mesh_pairs::pairs::Pairs;
use mesh_paths::paths::{Paths, Piece};
use std::alloc::{AllocError, Global};

/// Pieces are cut again where there is at most one pair in doubt for so many paths. With half as many, attempts are mended
/// that seldom come to an end.
const PATHS_A_DOUBT: usize = 16;

/// For each piece so many comparisons are made, of pieces or of parts of paths that lines do not part, before an attempt is
/// given up. Twice as many would make attempts that come to nothing take longer.
const COMPARISONS: usize = 16;

/// Pieces that meet still are cut where they meet so often. What meets then seldom comes to an end this way, so twice as
/// many would be of little use.
const TURNS: usize = 6;

/// So few pairs in doubt are mended again, even where that does not halve them. With twice as many, more paths that move each
/// other in turns would be bent too far.
const FEW: usize = 8;

/// All pairs are checked so often, at most, after pieces were cut and none that came near was found in doubt. The first check
/// mostly does.
const CHECKS: usize = 3;

/// At so many pairs a path is cut each time. One that is cut at more is often one of three that move each other in turns.
const MOST_TIMES: u8 = 8;

/// What is to be compared: the pieces of a path next to a point at which it was cut, and another path.
#[derive(Copy, Clone)]
struct Look {
    first: u32,
    second: u32,
    at: u32,
}

/// The point of paths of which all pieces are compared.
const ANYWHERE: u32 = u32::MAX;

/// The pieces of a path next to the point of a number, or all of them where it has no stop there.
fn pieces_at(paths: &Paths, path: u32, at: u32) -> Stretch
    requires paths { ArePaths paths.now }
    requires path { path < count_of paths.now.stops }
    ensures { IsStretchOf paths.now result }
{
    let pieces = paths.stops.pieces(path as usize);
    if at != ANYWHERE {
        for place in 0..pieces {
            if paths.stops.stop(path as usize, place).id == at {
                return Stretch {
                    path,
                    start: place.saturating_sub(1),
                    end: place + 1,
                };
            }
        }
    }
    whole(paths, path)
}

/// Adds the path of a piece, and the point at which it was cut, if it was: the path has more pieces than before.
fn push_cut(
    paths: &Paths,
    piece: Piece,
    before: usize,
    cuts: &mut Vec<(u32, u32)>,
) -> Result<(), AllocError>
    requires paths { ArePaths paths.now }
    requires path { piece.path < count_of paths.now.stops }
{
    let pieces = paths.stops.pieces(piece.path as usize);
    if pieces > before && piece.place < pieces {
        let stop = paths.stops.stop(piece.path as usize, piece.place + 1);
        cuts.push((piece.path, stop.id))?;
    }
    Ok(())
}

/// Cuts two paths where their pieces meet, by so many comparisons as are left. Adds what was cut to a list.
fn mend_pair(
    paths: &mut Paths,
    look: Look,
    cuts: &mut Vec<(u32, u32)>,
    left: &mut usize,
) -> Result<(), AllocError>
    requires paths { ArePaths paths.old }
    requires first { look.first < count_of paths.old.stops }
    requires second { look.second < count_of paths.old.stops }
    ensures paths { OnOk result (ArePaths paths.new) }
    ensures edges { OnOk result (paths.new.edges ≡ paths.old.edges) }
{
    while let Err(Some((p, q))) = compare(
        paths,
        pieces_at(paths, look.first, look.at),
        whole(paths, look.second),
        left,
    ) {
        let first = paths.stops.pieces(p.path as usize);
        let second = paths.stops.pieces(q.path as usize);
        paths.cut_pieces(p, q)?;
        push_cut(paths, p, first, cuts)?;
        push_cut(paths, q, second, cuts)?;
    }
    Ok(())
}

/// Adds what is to be compared after a path was cut at a point: its pieces there, with all paths that come near it.
fn push_looks(
    alloc: Global,
    paths: &Paths,
    neighbours: &Neighbours,
    cut: (u32, u32),
    list: &mut Vec<Look>,
) -> Result<(), AllocError>
    requires { ArePaths paths.now }
{
    let (first, at) = cut;
    for second in neighbours.of(first) {
        list.push(Look {
            first,
            second: *second,
            at,
        })?;
    }
    let mut ends = Vec::new(alloc);
    push_at_ends(paths, first, &mut ends)?;
    for pair in &ends {
        list.push(Look {
            first,
            second: pair.1,
            at,
        })?;
    }
    Ok(())
}

/// Cuts two paths where their pieces meet, unless one of them was cut so too often. Adds what is to be compared then.
fn mend_next(
    alloc: Global,
    paths: &mut Paths,
    neighbours: &Neighbours,
    times: &mut Vec<u8>,
    list: &mut Vec<Look>,
    look: Look,
    left: &mut usize,
) -> Result<(), AllocError>
    requires paths { ArePaths paths.old }
    ensures paths { OnOk result (ArePaths paths.new) }
    ensures edges { OnOk result (paths.new.edges ≡ paths.old.edges) }
{
    let first = look.first as usize;
    let second = look.second as usize;
    if first >= paths.edges.len() || second >= paths.edges.len() {
        return Ok(());
    }
    if first >= times.len() || second >= times.len() {
        return Ok(());
    }
    if times[first] >= MOST_TIMES || times[second] >= MOST_TIMES {
        return Ok(());
    }
    let mut cuts = Vec::new(alloc);
    mend_pair(paths, look, &mut cuts, left)?;
    if cuts.len() > 0 {
        times[first] = times[first].saturating_add(1);
        times[second] = times[second].saturating_add(1);
    }
    for cut in &cuts {
        push_looks(alloc, paths, neighbours, *cut, list)?;
    }
    Ok(())
}

/// Cuts paths where pieces of these pairs meet, and where pieces of those meet that come near a path that was cut so, as
/// far as that is found by `most` comparisons of pieces.
fn mend(
    alloc: Global,
    paths: &mut Paths,
    pairs: &Pairs,
    doubts: &[(u32, u32)],
    most: usize,
) -> Result<(), AllocError>
    requires { ArePaths paths.old }
    ensures paths { OnOk result (ArePaths paths.new) }
    ensures edges { OnOk result (paths.new.edges ≡ paths.old.edges) }
{
    let neighbours = Neighbours::new(alloc, paths.edges.len(), pairs)?;
    let mut times = vec![in alloc; 0u8; paths.edges.len()]?;
    let mut list = Vec::new(alloc);
    for pair in doubts {
        list.push(Look {
            first: pair.0,
            second: pair.1,
            at: ANYWHERE,
        })?;
    }
    let mut left = most;
    for next in 0..usize::MAX {
        if next >= list.len() || left == 0 {
            break;
        }
        let look = list[next];
        mend_next(
            alloc,
            paths,
            &neighbours,
            &mut times,
            &mut list,
            look,
            &mut left,
        )?;
    }
    Ok(())
}

/// Whether all pieces are clear of each other, and else which pairs of paths are in doubt.
#[derive(Drop)]
pub struct Verdict {
    pub clear: bool,
    /// Empty where a path is bent too far. Nothing where too many pairs are in doubt, or none was found: cutting would
    /// seldom come to an end.
    pub doubts: Option<Vec<(u32, u32)>>,
}

/// That these pairs are in doubt.
fn in_doubt(doubts: Vec<(u32, u32)>) -> Verdict
    ensures { result.clear ≡ false }
{
    Verdict {
        clear: false,
        doubts: Some(doubts),
    }
}

/// How many comparisons of pieces are made, at most.
fn most_comparisons(paths: &Paths) -> usize {
    let pieces = paths.edges.len().saturating_add(paths.splits.made().len());
    pieces.saturating_mul(COMPARISONS)
}

/// The pairs of paths that are in doubt after a check that came so far.
fn doubts_of(
    alloc: Global,
    cut: &CutEdges,
    progress: Progress,
) -> Result<Option<Vec<(u32, u32)>>, AllocError>
    requires paths { ArePaths cut.now.paths }
    requires found { AreFound cut.now.paths.edges.items cut.now.pairs }
{
    let most = most_comparisons(&cut.paths);
    let most_doubts = cut.paths.edges.len() / PATHS_A_DOUBT;
    let found = doubtful_pairs(alloc, &cut.paths, &cut.pairs, most, most_doubts, progress)?;
    let Some(doubts) = found else {
        return Ok(Some(Vec::new(alloc)));
    };
    if doubts.len() == 0 || doubts.len() > most_doubts {
        return Ok(None);
    }
    Ok(Some(doubts))
}

/// Whether all pieces are clear of each other, as far as comparisons of pieces tell.
fn check(alloc: Global, cut: &CutEdges) -> Result<Verdict, AllocError>
    requires paths { ArePaths cut.now.paths }
    requires found { AreFound cut.now.paths.edges.items cut.now.pairs }
    ensures { IfOk result (λ v. IsTrue v.clear → AreAllClear cut.now.paths) }
{
    let most = most_comparisons(&cut.paths);
    let mut progress = NO_PROGRESS;
    if are_all_clear(alloc, &cut.paths, &cut.pairs, most, &mut progress)? {
        return Ok(Verdict {
            clear: true,
            doubts: None,
        });
    }
    let doubts = doubts_of(alloc, cut, progress)?;
    Ok(Verdict {
        clear: false,
        doubts,
    })
}

/// Cuts paths where pieces of these pairs meet, in turns, as long as that halves the pairs that are found to be in doubt,
/// or few are left. Answers which are left: nothing where a path is bent too far.
fn mend_in_turns(
    alloc: Global,
    cut: &mut CutEdges,
    doubts: Vec<(u32, u32)>,
) -> Result<Option<Vec<(u32, u32)>>, AllocError>
    requires paths { ArePaths cut.old.paths }
    requires found { AreFound cut.old.paths.edges.items cut.old.pairs }
    ensures cut { OnOk result ((given : List Edge) → AreCut given cut.old → AreCut given cut.new) }
    ensures paths { OnOk result (ArePaths cut.new.paths) }
    ensures found { OnOk result (AreFound cut.new.paths.edges.items cut.new.pairs) }
{
    let mut doubts = doubts;
    let mut few = usize::MAX;
    for _ in 0..TURNS {
        if doubts.len() == 0 || doubts.len() > few {
            break;
        }
        few = (doubts.len() / 2).max(FEW);
        let most = most_comparisons(&cut.paths);
        let most_doubts = cut.paths.edges.len() / PATHS_A_DOUBT;
        let seen = Seen::all(alloc, &cut.paths)?;
        mend(alloc, &mut cut.paths, &cut.pairs, &doubts, most)?;
        let found = doubtful_pairs_since(alloc, &cut.paths, &cut.pairs, &seen, most, most_doubts)?;
        let Some(left) = found else {
            return Ok(None);
        };
        doubts = left;
    }
    Ok(Some(doubts))
}

/// The same, once pieces that meet still were cut where they meet.
pub fn mended(alloc: Global, cut: &mut CutEdges) -> Result<Verdict, AllocError>
    requires paths { ArePaths cut.old.paths }
    requires found { AreFound cut.old.paths.edges.items cut.old.pairs }
    ensures cut { OnOk result ((given : List Edge) → AreCut given cut.old → AreCut given cut.new) }
    ensures clear { IfOk result (λ v. IsTrue v.clear → AreAllClear cut.new.paths) }
{
    let mut verdict = check(alloc, cut)?;
    for _ in 0..CHECKS {
        let Some(doubts) = verdict.doubts.take() else {
            break;
        };
        if doubts.len() == 0 {
            return Ok(in_doubt(doubts));
        }
        let Some(left) = mend_in_turns(alloc, cut, doubts)? else {
            return Ok(in_doubt(Vec::new(alloc)));
        };
        if left.len() > 0 {
            return Ok(in_doubt(left));
        }
        verdict = check(alloc, cut)?;
    }
    Ok(verdict)
}
