//! Whether an attempt in arrays is worth making, as a few edges tell.

use mesh_lattice::exact::are_boxes_apart;
use mesh_lattice::lattice::LatticeEdge;
use mesh_meeting::meeting::any_meeting;

/// Of so many edges the boxes are looked at. Twice as many would cost twice as much, and tell little more.
const SAMPLES: usize = 8;

/// Of fewer edges all pairs are found and cut soon, and looking would cost more than it saves. Twice as many would let some
/// hatches take long.
const FEW_EDGES: usize = 256;

/// Boxes serve where each meets so many others at most, and so many more for each edge that is met. Looking at so many costs
/// what rounds take for a meeting; with twice as many, stars and hatches would take longer than in rounds.
const BOXES_A_MEETING: usize = 128;

/// What one of the edges tells of all.
#[derive(Copy, Clone)]
struct Counts {
    /// How many boxes meet its own.
    boxes: usize,
    /// How many edges meet it.
    meetings: usize,
}

/// How many boxes meet that of an edge, and how many edges meet it.
fn count_conflicts(edges: &[LatticeEdge], e: LatticeEdge) -> Counts {
    let mut counts = Counts {
        boxes: 0,
        meetings: 0,
    };
    for f in edges {
        if !are_boxes_apart(e, *f) {
            counts.boxes = counts.boxes.saturating_add(1);
            if any_meeting(e, *f).is_some() {
                counts.meetings = counts.meetings.saturating_add(1);
            }
        }
    }
    counts
}

/// Whether arrays serve: few boxes meet, beside the edges that meet, as they do not where long slanting edges lie side by
/// side.
pub fn do_arrays_serve(edges: &[LatticeEdge]) -> bool {
    if edges.len() < FEW_EDGES {
        return true;
    }
    let step = edges.len() / SAMPLES;
    let mut boxes: usize = 0;
    let mut meetings: usize = 0;
    for sample in 0..SAMPLES {
        let counts = count_conflicts(edges, edges[sample * step]);
        boxes = boxes.saturating_add(counts.boxes);
        meetings = meetings.saturating_add(counts.meetings);
    }
    let many = meetings
        .saturating_add(SAMPLES)
        .saturating_mul(BOXES_A_MEETING);
    boxes <= many
}
