//! Level and upright edges cut at each other's ends: worked lists, and what they become. Expected values are by hand.

use mesh_in_line::in_line::cut_in_line;
use mesh_in_line::samples::are_many_in_line;
use mesh_lattice::lattice::LatticeEdge;
use std::test::Fail;

/// Edges, what they become, and by how many splits.
type Row = (&'static [LatticeEdge], &'static [LatticeEdge], usize);

const ROWS: &[Row] = &[
    // Level edges that overlap, one of them back, and an upright one that ends where they do.
    (
        &[((0, 0), (4, 0)), ((6, 0), (2, 0)), ((0, 3), (0, 0))],
        &[
            ((0, 0), (2, 0)),
            ((2, 0), (4, 0)),
            ((6, 0), (4, 0)),
            ((4, 0), (2, 0)),
            ((0, 3), (0, 0)),
        ],
        2,
    ),
    // Upright edges with one end: what is left of the longest is split with the others.
    (
        &[((5, 3), (5, 9)), ((5, 0), (5, 9)), ((5, 9), (5, 6))],
        &[
            ((5, 3), (5, 6)),
            ((5, 6), (5, 9)),
            ((5, 0), (5, 3)),
            ((5, 3), (5, 6)),
            ((5, 6), (5, 9)),
            ((5, 9), (5, 6)),
        ],
        2,
    ),
    // Edges that only cross, and others on one line that do not reach each other.
    (
        &[
            ((0, 0), (4, 4)),
            ((4, 0), (0, 4)),
            ((0, 7), (1, 7)),
            ((2, 7), (3, 7)),
        ],
        &[
            ((0, 0), (4, 4)),
            ((4, 0), (0, 4)),
            ((0, 7), (1, 7)),
            ((2, 7), (3, 7)),
        ],
        0,
    ),
];

#[test]
fn worked_values(rt: HostRuntime) -> Result<(), Fail> {
    for row in ROWS {
        let (edges, wanted, splits) = *row;
        let Some(cut) = cut_in_line(rt.alloc(), edges)? else {
            return Err(Fail::new(format_args!("{edges:?} are not cut")));
        };
        let found = cut.edges.as_slice();
        if found != wanted || cut.splits != splits {
            return Err(Fail::new(format_args!(
                "{found:?} by {} splits, and not {wanted:?}",
                cut.splits
            )));
        }
    }
    Ok(())
}

#[test]
fn few_in_line_are_not_worth_it(_rt: HostRuntime) -> Result<(), Fail> {
    for (step, wanted) in [(1, true), (200, false)] {
        let mut edges = [((0, 0), (0, 0)); 100];
        for k in 0..100usize {
            let start = k as i32 * step;
            edges[k] = ((start, 0), (start + 100, 0));
        }
        if are_many_in_line(&edges) != wanted {
            return Err(Fail::new(format_args!("edges each {step} after the one before")));
        }
    }
    Ok(())
}
