//! Requests in memory: what is written, and how the run ends.

use crate::tables::booleans::notes::COMBINATIONS_REFUSED;
use crate::tables::booleans::reasons::{BOOLEAN_REASONS, OPERAND_REASONS, ZONE_REASONS};
use crate::tables::booleans::rules::{BOOLEANS, DRAWN_BOOLEANS};
use crate::tables::booleans::zones::{COVERAGES, OVERLAPS};
use crate::tables::distances::{DISTANCES, DISTANCES_UNREADABLE};
use crate::tables::edges::EDGES;
use crate::tables::miters::MITERS;
use crate::tables::refused::REFUSED;
use crate::tables::round::{ROUND, ROUND_REFUSED, ROUND_UNREADABLE};
use crate::tables::shapes::SHAPES;
use crate::tables::stroke_failures::{STROKES_REFUSED, STROKES_UNREADABLE};
use crate::tables::stroke_shapes::{STROKE_EXAMPLES, STROKE_SHAPES};
use crate::tables::stroke_sides::STROKE_SIDES;
use crate::tables::strokes::{STROKE_CORNERS, STROKES};
use crate::tables::unreadable::UNREADABLE;
use crate::tables::variable_stroke_failures::{
    VARIABLE_STROKES_REFUSED, VARIABLE_STROKES_UNREADABLE,
};
use crate::tables::variable_stroke_shapes::{VARIABLE_STROKE_EXAMPLES, VARIABLE_STROKE_SHAPES};
use crate::tables::variable_strokes::VARIABLE_STROKES;
use i_overlay_mesh::IntOutlineError;
use mesh_service::failure::Failure;
use mesh_service::service::{Status, serve};
use mesh_test_support::compared::expect_equal;
use std::alloc::Global;
use std::test::Fail;

const NOT_SERVED: &str = r#"{"unreadable":"request"}"#;

const OUT_OF_RANGE: &str = r#"{"refused":"mesh coordinate exceeds the integer engine range"}"#;

const NO_EDGES: &str = r#"{"edges":[[]]}"#;

/// The run ends so, and writes just this line, each time.
fn expect(alloc: Global, request: &[u8], status: Status, line: &str) -> Result<(), Fail> {
    for _ in 0..2 {
        expect_once(alloc, request, status, line)?;
    }
    Ok(())
}

/// A run on this request ends so, and writes just this line.
fn expect_once(alloc: Global, request: &[u8], status: Status, line: &str) -> Result<(), Fail> {
    let mut reader = request;
    let mut writer = Vec::new(alloc);
    let got = serve(alloc, &mut reader, &mut writer);
    expect_equal(&got, &status, &line)?;
    expect_written(&writer, line)
}

/// Just this line was written, with its end.
fn expect_written(written: &[u8], line: &str) -> Result<(), Fail> {
    let Some(text) = written.strip_suffix(b"\n") else {
        return Err(Fail::new("a line that doesn't end"));
    };
    let Ok(text) = str::from_utf8(text) else {
        return Err(Fail::new("not UTF-8"));
    };
    expect_equal(&text, &line, &"a line")
}

/// Each request of the table is answered, by the line beside it.
fn expect_answered(alloc: Global, table: &[(&str, &str)]) -> Result<(), Fail> {
    for (request, line) in table {
        expect(alloc, request.as_bytes(), Status::Answered, line)?;
    }
    Ok(())
}

/// The run on each text of the table ends so, and writes just this line.
fn expect_failures(alloc: Global, table: &[&str], status: Status, line: &str) -> Result<(), Fail> {
    for request in table {
        expect(alloc, request.as_bytes(), status, line)?;
    }
    Ok(())
}

#[test]
fn answered(rt: HostRuntime) -> Result<(), Fail> {
    expect_answered(rt.alloc(), EDGES)?;
    expect_answered(rt.alloc(), MITERS)?;
    expect_answered(rt.alloc(), ROUND)?;
    expect_answered(rt.alloc(), SHAPES)
}

#[test]
fn not_answered(rt: HostRuntime) -> Result<(), Fail> {
    let alloc = rt.alloc();
    expect_failures(alloc, REFUSED, Status::Refused, OUT_OF_RANGE)?;
    expect_failures(alloc, ROUND_REFUSED, Status::Refused, OUT_OF_RANGE)?;
    expect_failures(alloc, UNREADABLE, Status::Unreadable, NOT_SERVED)?;
    expect_failures(alloc, ROUND_UNREADABLE, Status::Unreadable, NOT_SERVED)?;
    expect(alloc, b"{\"a\":\"\xff\"}", Status::Unreadable, NOT_SERVED)
}

#[test]
fn strokes_answered(rt: HostRuntime) -> Result<(), Fail> {
    expect_answered(rt.alloc(), STROKES)?;
    expect_answered(rt.alloc(), STROKE_CORNERS)
}

#[test]
fn stroke_sides_answered(rt: HostRuntime) -> Result<(), Fail> {
    expect_answered(rt.alloc(), STROKE_SIDES)
}

#[test]
fn stroke_shapes_answered(rt: HostRuntime) -> Result<(), Fail> {
    expect_answered(rt.alloc(), STROKE_SHAPES)?;
    expect_answered(rt.alloc(), STROKE_EXAMPLES)
}

#[test]
fn strokes_not_answered(rt: HostRuntime) -> Result<(), Fail> {
    let alloc = rt.alloc();
    expect_failures(alloc, STROKES_REFUSED, Status::Refused, OUT_OF_RANGE)?;
    expect_failures(alloc, STROKES_UNREADABLE, Status::Unreadable, NOT_SERVED)
}

#[test]
fn variable_strokes_answered(rt: HostRuntime) -> Result<(), Fail> {
    expect_answered(rt.alloc(), VARIABLE_STROKES)?;
    expect_answered(rt.alloc(), VARIABLE_STROKE_SHAPES)?;
    expect_answered(rt.alloc(), VARIABLE_STROKE_EXAMPLES)
}

#[test]
fn variable_strokes_not_answered(rt: HostRuntime) -> Result<(), Fail> {
    let (alloc, refused) = (rt.alloc(), VARIABLE_STROKES_REFUSED);
    expect_failures(alloc, refused, Status::Refused, OUT_OF_RANGE)?;
    let unreadable = VARIABLE_STROKES_UNREADABLE;
    expect_failures(alloc, unreadable, Status::Unreadable, NOT_SERVED)
}

#[test]
fn distances_told(rt: HostRuntime) -> Result<(), Fail> {
    expect_answered(rt.alloc(), DISTANCES)?;
    let unreadable = DISTANCES_UNREADABLE;
    expect_failures(rt.alloc(), unreadable, Status::Unreadable, NOT_SERVED)
}

#[test]
fn booleans_answered(rt: HostRuntime) -> Result<(), Fail> {
    expect_answered(rt.alloc(), BOOLEANS)?;
    expect_answered(rt.alloc(), DRAWN_BOOLEANS)
}

#[test]
fn zones_answered(rt: HostRuntime) -> Result<(), Fail> {
    expect_answered(rt.alloc(), COVERAGES)?;
    expect_answered(rt.alloc(), OVERLAPS)
}

/// No text of the table is a request, and its line tells no more.
fn expect_no_requests(alloc: Global, table: &[(&str, &str)]) -> Result<(), Fail> {
    for (text, _) in table {
        expect(alloc, text.as_bytes(), Status::Unreadable, NOT_SERVED)?;
    }
    Ok(())
}

#[test]
fn combinations_not_answered(rt: HostRuntime) -> Result<(), Fail> {
    let alloc = rt.alloc();
    for (request, _) in COMBINATIONS_REFUSED {
        expect(alloc, request.as_bytes(), Status::Refused, OUT_OF_RANGE)?;
    }
    expect_no_requests(alloc, BOOLEAN_REASONS)?;
    expect_no_requests(alloc, OPERAND_REASONS)?;
    expect_no_requests(alloc, ZONE_REASONS)
}

/// Operands of which two edges cross beside whole points.
const BENT_INTERSECTION: &str =
    r#"{"op":"boolean","int":"i32","out":"shapes","rule":"intersect","subject":[[[0,0],[500,0],[500,301]]],"clip":[[[300,-50],[700,-50],[700,400],[300,400]]]}"#;

const BENT_DIFFERENCE: &str =
    r#"{"op":"boolean","int":"i32","out":"shapes","rule":"difference","subject":[[[0,0],[500,0],[500,301]]],"clip":[[[300,-50],[700,-50],[700,400],[300,400]]]}"#;

/// Squares of the subject, without the clip and within it, far from all edges.
const LEFT: &str = "[[[200,20],[250,20],[250,60],[200,60]]]";

const RIGHT: &str = "[[[350,50],[450,50],[450,150],[350,150]]]";

/// A request for what a square and the shapes of a line have in common.
fn common_part(alloc: Global, line: &[u8], square: &str) -> Result<String, Fail> {
    let shapes = line
        .strip_prefix(b"{\"shapes\":[")
        .and_then(|rest| rest.strip_suffix(b"]}\n"));
    let Some(Ok(shapes)) = shapes.map(str::from_utf8) else {
        return Err(Fail::new(format_args!("{line:?}")));
    };
    Ok(format!(in alloc;
        "{{\"op\":\"coverage\",\"int\":\"i32\",\"out\":\"shapes\",\"least\":2,\"zones\":[{square},{shapes}]}}"
    )?)
}

/// The answer to a request has all of this square, or nothing of it.
fn expect_square(alloc: Global, request: &str, square: &str, is_in: bool) -> Result<(), Fail> {
    let mut line = Vec::new(alloc);
    let _ = serve(alloc, &mut request.as_bytes(), &mut line);
    let common = common_part(alloc, &line, square)?;
    let wanted = format!(in alloc; "{{\"shapes\":[{}]}}", if is_in { square } else { "" })?;
    expect(alloc, common.as_bytes(), Status::Answered, &wanted)
}

/// Where rounding moves a crossing, an answer is still right far from all edges.
#[test]
fn bent_booleans(rt: HostRuntime) -> Result<(), Fail> {
    for (request, square, is_in) in [
        (BENT_INTERSECTION, RIGHT, true),
        (BENT_INTERSECTION, LEFT, false),
        (BENT_DIFFERENCE, LEFT, true),
        (BENT_DIFFERENCE, RIGHT, false),
    ] {
        expect_square(rt.alloc(), request, square, is_in)?;
    }
    Ok(())
}

const POINT: &str =
    r#"{"op":"outline","int":"i32","out":"edges","paths":[[[0,0]]],"style":{"outer":1,"inner":1}"#;

/// A request with so many lists in one another, in a key that means nothing.
fn nested(alloc: Global, depth: usize) -> Result<String, Fail> {
    let mut text = String::from_str(alloc, POINT)?;
    text.push_str(",\"n\":")?;
    for _ in 0..depth {
        text.push('[')?;
    }
    for _ in 0..depth {
        text.push(']')?;
    }
    text.push('}')?;
    Ok(text)
}

#[test]
fn nesting(rt: HostRuntime) -> Result<(), Fail> {
    for (depth, status, line) in [
        (126, Status::Answered, NO_EDGES),
        (127, Status::Unreadable, NOT_SERVED),
    ] {
        let request = nested(rt.alloc(), depth)?;
        expect(rt.alloc(), request.as_bytes(), status, line)?;
    }
    Ok(())
}

/// A request is read to its end, however long it is.
#[test]
fn long_request(rt: HostRuntime) -> Result<(), Fail> {
    let mut text = vec![in rt.alloc(); b' '; 200_000]?;
    text.extend_from_slice(POINT.as_bytes())?;
    text.push(b'}')?;
    expect(rt.alloc(), &text, Status::Answered, NO_EDGES)
}

/// The lines of refusals have the library's own words.
#[test]
fn failure_lines(rt: HostRuntime) -> Result<(), Fail> {
    for error in [
        IntOutlineError::CoordinateOutOfRange,
        IntOutlineError::OutOfMemory,
    ] {
        let line = format!(in rt.alloc(); "{{\"refused\":\"{error}\"}}\n")?;
        expect_equal(&Failure::from(error).line(), &line.as_str(), &error)?;
    }
    Ok(())
}
