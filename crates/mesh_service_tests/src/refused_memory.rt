//! Requests for which memory is refused, as `mesh_memory_tests` tries the calls.

use mesh_service::service::{Status, serve};
use mesh_test_support::compared::{expect_equal, expect_that};
use mesh_test_support::marks;
use std::alloc::Global;
use std::test::Fail;

/// A request of each operation and each type, for edges and for shapes; and points that leave the safe range, a point
/// of three numbers, and a text that ends too early. How a run on each ends.
const REQUESTS: &[(&str, Status)] = &[
    (
        r#"{"op":"outline","int":"i16","out":"edges","paths":[[[0,0],[40,0],[0,40]]],"style":{"outer":5,"inner":0}}"#,
        Status::Answered,
    ),
    (
        r#"{"op":"outline","int":"i32","out":"shapes","paths":[[[0,0],[40,0],[0,40]]],"style":{"outer":5,"inner":0}}"#,
        Status::Answered,
    ),
    (
        r#"{"op":"stroke","int":"i32","out":"edges","paths":[[[0,0],[8,0]]],"style":{"width":4,"end":{"custom":[[2,0]]}}}"#,
        Status::Answered,
    ),
    (
        r#"{"op":"stroke","int":"i16","out":"shapes","paths":[[[0,0],[8,0],[8,8]]],"style":{"width":4,"join":{"round":[0,4]}}}"#,
        Status::Answered,
    ),
    (
        r#"{"op":"variable_stroke","int":"i16","out":"edges","paths":[[[0,0,8],[40,0,4]]],"style":{"arc":[0,4]}}"#,
        Status::Answered,
    ),
    (
        r#"{"op":"variable_stroke","int":"i32","out":"shapes","paths":[[[0,0,8],[40,0,4]]],"style":{"arc":[536870912,5]}}"#,
        Status::Answered,
    ),
    (
        r#"{"op":"boolean","int":"i16","out":"shapes","rule":"xor","subject":[[[0,0],[4,0],[4,4]]],"clip":{"op":"stroke","paths":[[[2,0],[2,8]]],"style":{"width":4}}}"#,
        Status::Answered,
    ),
    (
        r#"{"op":"coverage","int":"i32","out":"shapes","zones":[[[[0,0],[4,0],[4,4]]],[[[2,0],[6,0],[2,4]]]],"least":2}"#,
        Status::Answered,
    ),
    (
        r#"{"op":"overlaps","int":"i16","out":"shapes","zones":[[[[0,0],[4,0],[4,4]]],[[[2,0],[6,0],[2,4]]]]}"#,
        Status::Answered,
    ),
    (
        r#"{"op":"outline","int":"i16","out":"shapes","paths":[[[15360,0]]],"style":{"outer":1024,"inner":1024}}"#,
        Status::Refused,
    ),
    (
        r#"{"op":"outline","int":"i16","out":"shapes","paths":[[[0,0,0]]],"style":{"outer":1,"inner":1}}"#,
        Status::Unreadable,
    ),
    (r#"{"op":"outline""#, Status::Unreadable),
];

const REFUSED: &[u8] = b"{\"refused\":\"mesh construction ran out of memory\"}\n";

/// A run on this request ends so; where memory is refused, it tells that, and the next run is as if nothing had been
/// refused. The writers have room, so they want no memory.
fn expect_served(alloc: Global, request: &str, wanted_status: Status) -> Result<(), Fail> {
    let mut wanted = Vec::with_capacity(alloc, 20_000)?;
    let mut writer = Vec::with_capacity(alloc, 20_000)?;
    let undisturbed = serve(alloc, &mut request.as_bytes(), &mut wanted);
    expect_equal(&undisturbed, &wanted_status, &request)?;
    expect_that(wanted.as_slice() != REFUSED, &request)?;
    marks::begin(alloc)?;
    let status = serve(alloc, &mut request.as_bytes(), &mut writer);
    marks::end(alloc)?;
    let is_refused = status == Status::Refused && writer.as_slice() == REFUSED;
    expect_that(
        is_refused || (status, &writer) == (wanted_status, &wanted),
        &request,
    )?;
    writer.clear();
    let again = serve(alloc, &mut request.as_bytes(), &mut writer);
    expect_equal(&(again, &writer), &(wanted_status, &wanted), &request)
}

#[test]
fn requests(rt: HostRuntime) -> Result<(), Fail> {
    for (request, status) in REQUESTS {
        expect_served(rt.alloc(), request, *status)?;
    }
    Ok(())
}
