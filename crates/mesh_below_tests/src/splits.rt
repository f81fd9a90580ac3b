//! Worked lists of edges, and what they are split into.

use mesh_below::given::are_proper;
use mesh_below::lattice::{CountedSegment, LatticeEdge};
use mesh_below::splitter::split_edges;
use mesh_test_support::compared::expect_equal;
use std::alloc::{AllocError, Global};
use std::test::Fail;

/// The segments that the edges are split into, in order; none where an edge ends where it starts.
pub fn split_sorted(
    alloc: Global,
    edges: &[LatticeEdge],
) -> Result<Vec<CountedSegment>, AllocError> {
    if !are_proper(edges) {
        return Ok(Vec::new(alloc));
    }
    let mut segments = split_edges(alloc, edges)?;
    segments.sort()?;
    Ok(segments)
}

/// Edges, and the segments that they are split into.
type Row = (&'static [LatticeEdge], &'static [CountedSegment]);

/// Crossings: in a whole point, and in points that are rounded, halves away from zero.
const CROSSINGS: &[Row] = &[
    (
        &[((0, 0), (4, 4)), ((4, 0), (0, 4))],
        &[
            (((0, 0), (2, 2)), 1),
            (((0, 4), (2, 2)), -1),
            (((2, 2), (4, 0)), -1),
            (((2, 2), (4, 4)), 1),
        ],
    ),
    (
        &[((0, 0), (3, 3)), ((3, 0), (0, 3))],
        &[
            (((0, 0), (2, 2)), 1),
            (((0, 3), (2, 2)), -1),
            (((2, 2), (3, 0)), -1),
            (((2, 2), (3, 3)), 1),
        ],
    ),
    (
        &[((0, 0), (-3, -3)), ((-3, 0), (0, -3))],
        &[
            (((-3, -3), (-2, -2)), -1),
            (((-3, 0), (-2, -2)), 1),
            (((-2, -2), (0, -3)), 1),
            (((-2, -2), (0, 0)), -1),
        ],
    ),
    (
        &[((1, 5), (1, 0)), ((0, 0), (2, 3))],
        &[
            (((0, 0), (1, 2)), 1),
            (((1, 0), (1, 2)), -1),
            (((1, 2), (1, 5)), -1),
            (((1, 2), (2, 3)), 1),
        ],
    ),
];

/// Ends inside level and upright segments, overlaps, repeats, and nothing at all.
const TOUCHES: &[Row] = &[
    (
        &[((0, 0), (6, 0)), ((2, 0), (3, 5))],
        &[
            (((0, 0), (2, 0)), 1),
            (((2, 0), (3, 5)), 1),
            (((2, 0), (6, 0)), 1),
        ],
    ),
    (
        &[((2, -3), (2, 3)), ((2, 1), (0, 0))],
        &[
            (((0, 0), (2, 1)), -1),
            (((2, -3), (2, 1)), 1),
            (((2, 1), (2, 3)), 1),
        ],
    ),
    (
        &[((0, 0), (4, 0)), ((6, 0), (2, 0))],
        &[
            (((0, 0), (2, 0)), 1),
            (((2, 0), (4, 0)), 0),
            (((4, 0), (6, 0)), -1),
        ],
    ),
    (
        &[((5, 0), (5, 4)), ((5, 6), (5, 2))],
        &[
            (((5, 0), (5, 2)), 1),
            (((5, 2), (5, 4)), 0),
            (((5, 4), (5, 6)), -1),
        ],
    ),
    (
        &[((0, 0), (2, 4)), ((2, 4), (0, 0)), ((0, 0), (2, 4))],
        &[(((0, 0), (2, 4)), 1)],
    ),
    (&[], &[]),
];

/// Six segments that cross in one point, where another one ends.
const STAR: Row = (
    &[
        ((-4, 0), (4, 0)),
        ((0, 4), (0, -4)),
        ((-3, -3), (3, 3)),
        ((-3, 3), (3, -3)),
        ((-1, -2), (1, 2)),
        ((4, 2), (-4, -2)),
        ((5, -1), (0, 0)),
    ],
    &[
        (((-4, -2), (0, 0)), -1),
        (((-4, 0), (0, 0)), 1),
        (((-3, -3), (0, 0)), 1),
        (((-3, 3), (0, 0)), 1),
        (((-1, -2), (0, 0)), 1),
        (((0, -4), (0, 0)), -1),
        (((0, 0), (0, 4)), -1),
        (((0, 0), (1, 2)), 1),
        (((0, 0), (3, -3)), 1),
        (((0, 0), (3, 3)), 1),
        (((0, 0), (4, 0)), 1),
        (((0, 0), (4, 2)), -1),
        (((0, 0), (5, -1)), -1),
    ],
);

const LEAST: i32 = i32::MIN;

const MOST: i32 = i32::MAX;

/// The ends of the safe range of `i16`, and of all of `i32`.
const FARTHEST: &[Row] = &[
    (
        &[
            ((-16383, -16383), (16383, 16382)),
            ((-16383, 16382), (16383, -16383)),
        ],
        &[
            (((-16383, -16383), (0, -1)), 1),
            (((-16383, 16382), (0, -1)), 1),
            (((0, -1), (16383, -16383)), 1),
            (((0, -1), (16383, 16382)), 1),
        ],
    ),
    (
        &[
            ((16383, -16383), (16383, 16383)),
            ((16383, 16382), (-16383, -16383)),
        ],
        &[
            (((-16383, -16383), (16383, 16382)), -1),
            (((16383, -16383), (16383, 16382)), 1),
            (((16383, 16382), (16383, 16383)), 1),
        ],
    ),
    (
        &[
            ((LEAST, LEAST), (MOST, MOST)),
            ((LEAST, MOST), (MOST, LEAST)),
        ],
        &[
            (((LEAST, LEAST), (-1, -1)), 1),
            (((LEAST, MOST), (-1, -1)), 1),
            (((-1, -1), (MOST, LEAST)), 1),
            (((-1, -1), (MOST, MOST)), 1),
        ],
    ),
    (
        &[((MOST, MOST), (MOST, LEAST)), ((LEAST, 0), (MOST, -1))],
        &[
            (((LEAST, 0), (MOST, -1)), 1),
            (((MOST, LEAST), (MOST, -1)), -1),
            (((MOST, -1), (MOST, MOST)), -1),
        ],
    ),
];

#[test]
fn worked_values(rt: HostRuntime) -> Result<(), Fail> {
    for rows in [CROSSINGS, TOUCHES, &[STAR], FARTHEST] {
        for row in rows {
            let (edges, want) = *row;
            let found = split_sorted(rt.alloc(), edges)?;
            expect_equal(&found.as_slice(), &want, &edges)?;
        }
    }
    Ok(())
}
