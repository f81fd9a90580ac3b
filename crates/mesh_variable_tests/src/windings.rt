//! How the edges of strokes wind: as the pieces that they are made of.

use crate::drawn::drawn;
use crate::tables::windings::WINDINGS;
use mesh_num::num::OverlayInt;
use mesh_test_support::compared::{expect_equal, expect_that};
use mesh_test_support::plain::{Edge, is_balanced, winding};
use mesh_test_support::rows::{broken, fields, is_for, triples};
use std::alloc::Global;
use std::test::Fail;

/// The edges close up, and wind round the points of the grid 2 as a list of triples says.
fn expect_counts(alloc: Global, edges: &[Edge], list: &str, row: &str) -> Result<(), Fail> {
    expect_that(is_balanced(edges), &row)?;
    for triple in &triples(alloc, list)? {
        let (x, y, count) = *triple;
        expect_equal(&winding(2, (x, y), edges), &count, &(triple, row))?;
    }
    Ok(())
}

/// The edges of the row's path close up, and wind round the stored points of the grid 2 as its pieces together, where
/// the row is meant for this width.
fn expect_windings<I: OverlayInt>(alloc: Global, row: &str, fields: &[&str]) -> Result<(), Fail> {
    let [width, arc, path, counts] = fields else {
        return Err(broken(row));
    };
    if !is_for::<I>(width) {
        return Ok(());
    }
    expect_counts(alloc, &drawn::<I>(alloc, path, arc)?, counts, row)
}

#[test]
fn stored_windings(rt: HostRuntime) -> Result<(), Fail> {
    for row in WINDINGS.lines() {
        let fields = fields(rt.alloc(), row)?;
        expect_windings::<i16>(rt.alloc(), row, &fields)?;
        expect_windings::<i32>(rt.alloc(), row, &fields)?;
    }
    Ok(())
}
