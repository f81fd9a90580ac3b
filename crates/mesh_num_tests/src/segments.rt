//! Signed segments.

ghost use Rattle.std.specs.Prelude.{◌≢◌};

use mesh_num::num::IntPoint;
use mesh_num::shape::segment::{Segment, SubjectSegments};
use mesh_test_support::compared::expect_equal;
use std::test::Fail;

/// The ends of a segment, the smaller one first, and its count.
fn told(segment: Segment<i32>) -> (IntPoint<i32>, IntPoint<i32>, i32) {
    (segment.x_segment.a, segment.x_segment.b, segment.count)
}

/// The ends of the edge that a segment stands for.
fn run(segment: Segment<i32>) -> (IntPoint<i32>, IntPoint<i32>) {
    let edge = segment.edge();
    (edge.start, edge.end)
}

fn expect_from_the_smaller_end(low: IntPoint<i32>, high: IntPoint<i32>) -> Result<(), Fail>
    requires there { low ≢ high }
    requires back { high ≢ low }
{
    let (there, back) = (Segment::subject(low, high), Segment::subject(high, low));
    expect_equal(&told(there), &(low, high, 1), &"there")?;
    expect_equal(&told(back), &(low, high, -1), &"back")?;
    expect_equal(&run(there), &(low, high), &"the edge there")?;
    expect_equal(&run(back), &(high, low), &"the edge back")
}

#[test]
fn segments_run_from_the_smaller_end() -> Result<(), Fail> {
    let low = IntPoint::new(-3, 8);
    expect_from_the_smaller_end(low, IntPoint::new(-3, 9))?;
    expect_from_the_smaller_end(low, IntPoint::new(4, -8))
}

#[test]
fn segments_are_cloned() -> Result<(), Fail> {
    let segment = Segment::subject(IntPoint::new(4, -8), IntPoint::new(-3, 8));
    let ends = segment.clone()?.x_segment.clone()?;
    let edge = segment.edge().clone()?;
    expect_equal(&(ends.a, ends.b), &(edge.end, edge.start), &"clones")
}

#[test]
fn equal_ends_push_nothing(rt: HostRuntime) -> Result<(), Fail> {
    let mut segments: Vec<Segment<i16>> = Vec::new(rt.alloc());
    let (p, q) = (IntPoint::<i16>::new(5, 5), IntPoint::<i16>::new(5, -5));
    segments.push_non_degenerate(p, p)?;
    expect_equal(&segments.len(), &0, &"equal ends")?;
    segments.push_non_degenerate(p, q)?;
    segments.push_non_degenerate(q, q)?;
    let [pushed] = segments.as_slice() else {
        return Err(Fail::new("not one segment"));
    };
    let pushed = (pushed.x_segment.a, pushed.x_segment.b, pushed.count);
    expect_equal(&pushed, &(q, p, -1), &"different ends")
}
