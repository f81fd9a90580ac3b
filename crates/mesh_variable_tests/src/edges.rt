//! The builder adds the stored edges, of worked paths and of random ones.

use crate::drawn::drawn;
use crate::tables::edges::EDGES;
use mesh_num::num::OverlayInt;
use mesh_test_support::compared::{are_same_edges, expect_that};
use mesh_test_support::plain::{Edge, closed};
use mesh_test_support::rows::{broken, fields, is_for, points};
use std::alloc::Global;
use std::test::Fail;

/// The edges round the closed lists of points of a field.
fn loops(alloc: Global, field: &str) -> Result<Vec<Edge>, Fail> {
    let mut edges = Vec::new(alloc);
    for list in field.split(';') {
        edges.extend_from_slice(&closed(alloc, &points(alloc, list)?)?)?;
    }
    Ok(edges)
}

/// The stroke of the row's path has the stored edges, where the row is meant for this width.
fn expect_edges<I: OverlayInt>(alloc: Global, row: &str, fields: &[&str]) -> Result<(), Fail> {
    let [width, arc, path, wanted] = fields else {
        return Err(broken(row));
    };
    if !is_for::<I>(width) {
        return Ok(());
    }
    let edges = drawn::<I>(alloc, path, arc)?;
    let is_same = are_same_edges(edges, loops(alloc, wanted)?)?;
    expect_that(is_same, &row)
}

#[test]
fn stored_edges(rt: HostRuntime) -> Result<(), Fail> {
    for row in EDGES.lines() {
        let fields = fields(rt.alloc(), row)?;
        expect_edges::<i16>(rt.alloc(), row, &fields)?;
        expect_edges::<i32>(rt.alloc(), row, &fields)?;
    }
    Ok(())
}
