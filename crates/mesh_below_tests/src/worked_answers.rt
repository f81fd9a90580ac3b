//! Worked answers, from outside the program.

use crate::answers::{Row, Shapes, expect, overlay_of};
use mesh_below::below::{ContourDirection, FillRule};
use mesh_test_support::{inner, outer};
use std::test::Fail;

/// Contours, and the answers by the positive and by the negative rule.
type Case = (&'static [Row], Shapes, Shapes);

/// Contours, the least area, whether outer contours run clockwise, whether vertices that contours run straight through
/// stay, and the answers by the positive and by the negative rule.
type Chosen = (&'static [Row], (u64, bool, bool), Shapes, Shapes);

#[test]
fn by_default(rt: HostRuntime) -> Result<(), Fail> {
    for cases in [PLAIN, NESTED, TOUCHING, ROUND_A_GAP, REPEATED] {
        for case in cases {
            let (contours, positive, negative) = *case;
            let overlay = overlay_of(rt.alloc(), contours)?;
            expect(&overlay, FillRule::Positive, positive)?;
            expect(&overlay, FillRule::Negative, negative)?;
        }
    }
    Ok(())
}

#[test]
fn by_options(rt: HostRuntime) -> Result<(), Fail> {
    for cases in [AREAS, DIRECTIONS, STRAIGHT] {
        for case in cases {
            let (contours, (area, clockwise, straight), positive, negative) = *case;
            let mut overlay = overlay_of(rt.alloc(), contours)?;
            overlay.options.min_output_area = area;
            overlay.options.preserve_output_collinear = straight;
            if clockwise {
                overlay.options.output_direction = ContourDirection::Clockwise;
            }
            expect(&overlay, FillRule::Positive, positive)?;
            expect(&overlay, FillRule::Negative, negative)?;
        }
    }
    Ok(())
}

const MOST: i32 = 1_073_741_823;

const LEAST: i32 = -1_073_741_823;

/// Nothing, squares that overlap, contours that cross themselves, and the corners of the safe range.
const PLAIN: &[Case] = &[
    (&[], &[], &[]),
    (
        &[outer!(0, 0, 4, 4), outer!(2, 2, 6, 6)],
        &[&[&[
            (0, 0),
            (4, 0),
            (4, 2),
            (6, 2),
            (6, 6),
            (2, 6),
            (2, 4),
            (0, 4),
        ]]],
        &[],
    ),
    (
        &[&[(0, 0), (4, 4), (4, 0), (0, 4)]],
        &[&[&[(0, 0), (2, 2), (0, 4)]]],
        &[&[&[(2, 2), (4, 0), (4, 4)]]],
    ),
    (
        &[&[(0, 0), (3, 3), (3, 0), (0, 3)]],
        &[&[&[(0, 0), (2, 2), (0, 3)]]],
        &[&[&[(2, 2), (3, 0), (3, 3)]]],
    ),
    (
        &[outer!(LEAST, LEAST, MOST, MOST)],
        &[&[outer!(LEAST, LEAST, MOST, MOST)]],
        &[],
    ),
];

/// Squares in squares, every other one a hole.
const NEST: &[Row] = &[
    outer!(0, 0, 24, 24),
    inner!(2, 2, 22, 22),
    outer!(4, 4, 20, 20),
    inner!(6, 6, 18, 18),
    outer!(8, 8, 16, 16),
    inner!(10, 10, 14, 14),
];

/// Holes stand with the contour round them, in order, though they are given in another one.
const NESTED: &[Case] = &[
    (
        NEST,
        &[
            &[outer!(0, 0, 24, 24), inner!(2, 2, 22, 22)],
            &[outer!(4, 4, 20, 20), inner!(6, 6, 18, 18)],
            &[outer!(8, 8, 16, 16), inner!(10, 10, 14, 14)],
        ],
        &[],
    ),
    (
        &[outer!(0, 0, 10, 10), inner!(2, 2, 8, 8), outer!(4, 4, 6, 6)],
        &[
            &[outer!(0, 0, 10, 10), inner!(2, 2, 8, 8)],
            &[outer!(4, 4, 6, 6)],
        ],
        &[],
    ),
    (
        &[inner!(0, 0, 10, 10), outer!(2, 2, 8, 8), inner!(4, 4, 6, 6)],
        &[],
        &[
            &[outer!(0, 0, 10, 10), inner!(2, 2, 8, 8)],
            &[outer!(4, 4, 6, 6)],
        ],
    ),
    (
        &[
            outer!(0, 0, 20, 10),
            inner!(12, 2, 14, 4),
            inner!(2, 6, 4, 8),
            inner!(2, 2, 4, 4),
            inner!(7, 1, 9, 3),
        ],
        &[&[
            outer!(0, 0, 20, 10),
            inner!(2, 2, 4, 4),
            inner!(2, 6, 4, 8),
            inner!(7, 1, 9, 3),
            inner!(12, 2, 14, 4),
        ]],
        &[],
    ),
];

/// A square, and a hole that touches one of its sides.
const TOUCHED_SIDE: &[Row] = &[outer!(0, 0, 4, 4), &[(2, 0), (1, 1), (2, 2), (3, 1)]];

/// At a point with several edges the walk takes the first clockwise from the way back: outer contours that touch part,
/// and an outer contour and a hole that touch, or two holes, are one.
const TOUCHING: &[Case] = &[
    (
        &[outer!(0, 0, 2, 2), outer!(2, 2, 4, 4)],
        &[&[outer!(0, 0, 2, 2)], &[outer!(2, 2, 4, 4)]],
        &[],
    ),
    (
        &[outer!(0, 2, 2, 4), outer!(2, 0, 4, 2)],
        &[&[outer!(0, 2, 2, 4)], &[outer!(2, 0, 4, 2)]],
        &[],
    ),
    (
        &[&[
            (0, 0),
            (4, 0),
            (4, 4),
            (8, 4),
            (8, 8),
            (4, 8),
            (4, 4),
            (0, 4),
        ]],
        &[&[outer!(0, 0, 4, 4)], &[outer!(4, 4, 8, 8)]],
        &[],
    ),
    (
        TOUCHED_SIDE,
        &[&[&[
            (0, 0),
            (2, 0),
            (1, 1),
            (2, 2),
            (3, 1),
            (2, 0),
            (4, 0),
            (4, 4),
            (0, 4),
        ]]],
        &[],
    ),
    (
        // begun at the visit with the least next vertex
        &[outer!(0, 0, 4, 4), &[(0, 0), (1, 3), (3, 3), (3, 1)]],
        &[&[&[
            (0, 0),
            (1, 3),
            (3, 3),
            (3, 1),
            (0, 0),
            (4, 0),
            (4, 4),
            (0, 4),
        ]]],
        &[],
    ),
    (
        &[outer!(0, 0, 8, 8), inner!(2, 2, 4, 4), inner!(4, 4, 6, 6)],
        &[&[
            outer!(0, 0, 8, 8),
            &[
                (2, 2),
                (2, 4),
                (4, 4),
                (4, 6),
                (6, 6),
                (6, 4),
                (4, 4),
                (4, 2),
            ],
        ]],
        &[],
    ),
    (
        &[outer!(0, 0, 8, 8), inner!(2, 4, 4, 6), inner!(4, 2, 6, 4)],
        &[&[
            outer!(0, 0, 8, 8),
            &[
                (2, 4),
                (2, 6),
                (4, 6),
                (4, 4),
                (6, 4),
                (6, 2),
                (4, 2),
                (4, 4),
            ],
        ]],
        &[],
    ),
];

/// Four squares that touch in pairs, round a gap.
const ROUND_A_GAP: &[Case] = &[(
    &[
        outer!(2, 0, 4, 2),
        outer!(0, 2, 2, 4),
        outer!(4, 2, 6, 4),
        outer!(2, 4, 4, 6),
    ],
    &[
        &[outer!(0, 2, 2, 4)],
        &[outer!(2, 0, 4, 2)],
        &[outer!(2, 4, 4, 6)],
        &[outer!(4, 2, 6, 4)],
    ],
    &[],
)];

/// A square given twice, there and back, and back alone.
const REPEATED: &[Case] = &[
    (
        &[outer!(0, 0, 4, 4), outer!(0, 0, 4, 4)],
        &[&[outer!(0, 0, 4, 4)]],
        &[],
    ),
    (
        &[outer!(0, 0, 4, 4), &[(0, 4), (4, 4), (4, 0), (0, 0)]],
        &[],
        &[],
    ),
    (
        &[&[(0, 4), (4, 4), (4, 0), (0, 0)]],
        &[],
        &[&[outer!(0, 0, 4, 4)]],
    ),
];

const RING: &[Row] = &[outer!(0, 0, 10, 10), inner!(1, 1, 9, 9)];

const AREAS: &[Chosen] = &[
    (
        &[outer!(0, 0, 4, 4)],
        (16, false, false),
        &[&[outer!(0, 0, 4, 4)]],
        &[],
    ),
    (&[outer!(0, 0, 4, 4)], (17, false, false), &[], &[]),
    (
        &[inner!(0, 0, 4, 4)],
        (16, false, false),
        &[],
        &[&[outer!(0, 0, 4, 4)]],
    ),
    (&[inner!(0, 0, 4, 4)], (17, false, false), &[], &[]),
    (RING, (64, false, false), &[RING], &[]),
    (RING, (65, false, false), &[&[outer!(0, 0, 10, 10)]], &[]),
    (
        NEST,
        (65, false, false),
        &[
            &[outer!(0, 0, 24, 24), inner!(2, 2, 22, 22)],
            &[outer!(4, 4, 20, 20), inner!(6, 6, 18, 18)],
        ],
        &[],
    ),
];

const DIRECTIONS: &[Chosen] = &[
    (
        &[outer!(0, 0, 4, 4)],
        (0, true, false),
        &[&[inner!(0, 0, 4, 4)]],
        &[],
    ),
    (
        &[inner!(0, 0, 4, 4)],
        (0, true, false),
        &[],
        &[&[inner!(0, 0, 4, 4)]],
    ),
    (
        NEST,
        (0, true, false),
        &[
            &[inner!(0, 0, 24, 24), outer!(2, 2, 22, 22)],
            &[inner!(4, 4, 20, 20), outer!(6, 6, 18, 18)],
            &[inner!(8, 8, 16, 16), outer!(10, 10, 14, 14)],
        ],
        &[],
    ),
    (
        TOUCHED_SIDE,
        (0, true, false),
        &[&[&[
            (0, 0),
            (0, 4),
            (4, 4),
            (4, 0),
            (2, 0),
            (3, 1),
            (2, 2),
            (1, 1),
            (2, 0),
        ]]],
        &[],
    ),
];

const WITH_A_VERTEX_ON_A_SIDE: Row = &[(0, 0), (2, 0), (4, 0), (4, 4), (0, 4)];

const WITH_A_SPIKE: Row = &[(0, 0), (4, 0), (8, 0), (4, 0), (4, 4), (0, 4)];

/// Vertices that contours run straight through, given or from where a spike begins, and repeats.
const STRAIGHT: &[Chosen] = &[
    (
        &[WITH_A_VERTEX_ON_A_SIDE],
        (0, false, true),
        &[&[WITH_A_VERTEX_ON_A_SIDE]],
        &[],
    ),
    (
        &[WITH_A_VERTEX_ON_A_SIDE],
        (0, false, false),
        &[&[outer!(0, 0, 4, 4)]],
        &[],
    ),
    (
        &[&[(0, 0), (0, 4), (4, 4), (4, 0), (2, 0)]],
        (0, false, true),
        &[],
        &[&[WITH_A_VERTEX_ON_A_SIDE]],
    ),
    (
        &[&[(0, 0), (0, 4), (4, 4), (4, 0), (2, 0)]],
        (0, false, false),
        &[],
        &[&[outer!(0, 0, 4, 4)]],
    ),
    (
        &[WITH_A_SPIKE],
        (0, false, false),
        &[&[outer!(0, 0, 4, 4)]],
        &[],
    ),
    (
        &[WITH_A_SPIKE],
        (0, false, true),
        &[&[outer!(0, 0, 4, 4)]],
        &[],
    ),
    (
        &[&[(0, 0), (0, 0), (4, 0), (4, 0), (4, 4)]],
        (0, false, true),
        &[&[&[(0, 0), (4, 0), (4, 4)]]],
        &[],
    ),
];
