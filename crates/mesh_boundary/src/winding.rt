//! How often counted segments wind round a point of the grid that is twice as fine.

ghost use Rattle.std.specs.Prelude.{◌≡◌, ◌^◌, pos, ◌≤ℤ◌, ◌*ℤ◌, unsigned_abs};
ghost use Rattle.mesh_plane.specs.Bounds.{IsSmall};
ghost use Rattle.mesh_plane.specs.Winding.{sum_of, crossing_on};
ghost use Rattle.mesh_lattice.specs.Counted.{size, IsRoomy};
ghost use Rattle.mesh_boundary.specs.Private.CountedSides.{counted_winding};

use mesh_lattice::fine::{FinePoint, crossing, doubled};
use mesh_lattice::lattice::CountedSegment;

/// A segment's crossing at a point, as often as it counts.
fn counted_crossing(q: FinePoint, s: CountedSegment) -> i128
    requires count_small { IsRoomy (size s) }
    ensures value { result ≡ s.1 *ℤ crossing_on 2 q s.0.0 s.0.1 }
    ensures size { pos (unsigned_abs result) ≤ℤ size s }
{
    let c = crossing(q, doubled(s.0.0), doubled(s.0.1));
    if c > 0 {
        return s.1;
    }
    if c < 0 {
        return -s.1;
    }
    0
}

/// How often the segments wind round a point.
pub fn winding(segments: &[CountedSegment], q: FinePoint) -> i128
    requires room { IsRoomy (sum_of size segments.now) }
    ensures value { result ≡ counted_winding q segments.now }
    ensures size { IsSmall (2 ^ 121) result }
{
    let mut sum: i128 = 0;
    for s in segments {
        sum += counted_crossing(q, *s);
    }
    sum
}
