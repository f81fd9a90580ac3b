//! Where zones cover the plane, and where they overlap.

/// A request for where so many zones cover the plane, and its answer.
pub const COVERAGES: &[(&str, &str)] = &[
    (
        r#"{"op":"coverage","int":"i32","out":"shapes","zones":[[[[0,0],[4,0],[4,4],[0,4]]],[[[2,2],[6,2],[6,6],[2,6]]],[[[1,1],[3,1],[3,3],[1,3]]]],"least":2}"#,
        r#"{"shapes":[[[[1,1],[3,1],[3,2],[4,2],[4,4],[2,4],[2,3],[1,3]]]]}"#,
    ),
    // a zone that overlaps itself counts once
    (
        r#"{"op":"coverage","int":"i32","out":"shapes","zones":[[[[0,0],[4,0],[4,4],[0,4]],[[0,0],[4,0],[4,4],[0,4]]],[[[2,2],[6,2],[6,6],[2,6]]],[[[1,1],[3,1],[3,3],[1,3]]]],"least":3}"#,
        r#"{"shapes":[[[[2,2],[3,2],[3,3],[2,3]]]]}"#,
    ),
    // one zone is enough, or more than there are
    (
        r#"{"op":"coverage","int":"i32","out":"shapes","zones":[[[[0,0],[4,0],[4,4],[0,4]]],[[[2,2],[6,2],[6,6],[2,6]]]],"least":1}"#,
        r#"{"shapes":[[[[0,0],[4,0],[4,2],[6,2],[6,6],[2,6],[2,4],[0,4]]]]}"#,
    ),
    (
        r#"{"op":"coverage","int":"i32","out":"shapes","zones":[[[[0,0],[4,0],[4,4],[0,4]]],[[[2,2],[6,2],[6,6],[2,6]]]],"least":4294967295}"#,
        r#"{"shapes":[]}"#,
    ),
    (
        r#"{"op":"coverage","int":"i16","out":"shapes","zones":[],"least":1}"#,
        r#"{"shapes":[]}"#,
    ),
    // a fill rule for all zones, and options
    (
        r#"{"op":"coverage","int":"i32","out":"shapes","zones":[[[[0,4],[4,4],[4,0],[0,0]]],[[[0,0],[4,0],[4,4],[0,4]]]],"least":2,"fill":"negative"}"#,
        r#"{"shapes":[]}"#,
    ),
    (
        r#"{"op":"coverage","int":"i32","out":"shapes","zones":[[[[0,4],[4,4],[4,0],[0,0]]],[[[0,0],[4,0],[4,4],[0,4]]]],"least":2,"options":{"clockwise":true}}"#,
        r#"{"shapes":[[[[0,0],[0,4],[4,4],[4,0]]]]}"#,
    ),
];

/// A request for where zones overlap, and its answer.
pub const OVERLAPS: &[(&str, &str)] = &[
    // tracks: two touch, and each overlaps the third
    (
        r#"{"op":"overlaps","int":"i32","out":"shapes","zones":[{"op":"stroke","paths":[[[0,0],[20,0]]],"style":{"width":8}},{"op":"stroke","paths":[[[0,8],[20,8]]],"style":{"width":8}},{"op":"stroke","paths":[[[0,6],[20,6]]],"style":{"width":8}}]}"#,
        r#"{"overlaps":[[0,2,[[[[0,2],[20,2],[20,4],[0,4]]]]],[1,2,[[[[0,4],[20,4],[20,10],[0,10]]]]]]}"#,
    ),
    // each pair once, in the order of its zones
    (
        r#"{"op":"overlaps","int":"i32","out":"shapes","zones":[[[[1,1],[3,1],[3,3],[1,3]]],[[[0,0],[4,0],[4,4],[0,4]]],[[[2,2],[6,2],[6,6],[2,6]]]]}"#,
        r#"{"overlaps":[[0,1,[[[[1,1],[3,1],[3,3],[1,3]]]]],[0,2,[[[[2,2],[3,2],[3,3],[2,3]]]]],[1,2,[[[[2,2],[4,2],[4,4],[2,4]]]]]]}"#,
    ),
    (
        r#"{"op":"overlaps","int":"i16","out":"shapes","zones":[[[[0,0],[4,0],[4,4],[0,4]]],[[[8,0],[9,0],[9,9]]],[[[2,2],[6,2],[6,6],[2,6]]]],"options":{"clockwise":true}}"#,
        r#"{"overlaps":[[0,2,[[[[2,2],[2,4],[4,4],[4,2]]]]]]}"#,
    ),
    // a pair whose common part is below the least area
    (
        r#"{"op":"overlaps","int":"i32","out":"shapes","zones":[[[[0,0],[4,0],[4,4],[0,4]]],[[[2,2],[6,2],[6,6],[2,6]]]],"options":{"min_area":5}}"#,
        r#"{"overlaps":[]}"#,
    ),
    (
        r#"{"op":"overlaps","int":"i32","out":"shapes","zones":[[[[0,4],[4,4],[4,0],[0,0]]],[[[0,0],[4,0],[4,4],[0,4]]]],"fill":"positive"}"#,
        r#"{"overlaps":[]}"#,
    ),
    (
        r#"{"op":"overlaps","int":"i32","out":"shapes","zones":[]}"#,
        r#"{"overlaps":[]}"#,
    ),
];
