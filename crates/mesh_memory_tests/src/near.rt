//! Answers that tell how near they are, where memory may have been refused.

use mesh_below::nearness::{NearShapes, SplitCount};
use mesh_test_support::compared::{expect_equal, expect_that};
use std::fmt::Debug;
use std::test::Fail;

/// Fails where two answers differ.
pub fn expect_same_near(found: &NearShapes<i32>, wanted: &NearShapes<i32>) -> Result<(), Fail> {
    expect_equal(&found.shapes, &wanted.shapes, &"the shapes")?;
    expect_equal(&found.nearness, &wanted.nearness, &"the nearness")
}

/// A call answered what it answers undisturbed, and counted as many splits; or it answered this error, and counted no
/// more.
pub fn expect_near<E: PartialEq + Debug>(
    found: &Result<NearShapes<i32>, E>,
    count: SplitCount,
    wanted: &NearShapes<i32>,
    made: u64,
    out_of_memory: &E,
) -> Result<(), Fail> {
    match found {
        Ok(found) => {
            expect_same_near(found, wanted)?;
            expect_equal(&count.made, &made, &"the splits")
        }
        Err(error) => {
            expect_equal(error, out_of_memory, &"a refusal")?;
            expect_that(count.made <= made, &count)
        }
    }
}
