//! Requests that are refused or answered, and what people are told of each.

/// A request that is refused, and why.
pub const REFUSED: &[(&str, &str)] = &[
    (
        r#"{"op":"outline","int":"i16","out":"edges","paths":[[[0,0],[15360,0]]],"style":{"outer":1024,"inner":1024}}"#,
        "paths[0][1]: with the padding 1024 it leaves the range from -16383 to 16383\n",
    ),
    (
        r#"{"op":"outline","int":"i16","out":"shapes","paths":[[[0,0]],[[0,0],[0,-15360]]],"style":{"outer":1,"inner":1024}}"#,
        "paths[1][1]: with the padding 1024 it leaves the range from -16383 to 16383\n",
    ),
    (
        r#"{"op":"stroke","int":"i32","out":"edges","paths":[[[1073741823,0]]],"style":{"width":2}}"#,
        "paths[0][0]: with the padding 1 it leaves the range from -1073741823 to 1073741823\n",
    ),
    (
        r#"{"op":"variable_stroke","int":"i16","out":"edges","paths":[[[0,0,9]],[[16380,0,2],[0,16380,0]]],"style":{}}"#,
        "paths[1][0]: with the padding 5 it leaves the range from -16383 to 16383\n",
    ),
    (
        r#"{"op":"outline","int":"i16","out":"edges","paths":[[[0,0]],[[-16383,-16383],[16383,-16383],[16383,16383],[-16383,16383],[-16383,-16383],[16383,-16383],[16383,16383],[-16383,16383]]],"style":{"outer":0,"inner":0}}"#,
        "paths[1]: its area is too large\n",
    ),
];

/// A request that is answered, and what of it is ignored.
pub const ANSWERED: &[(&str, &str)] = &[
    (
        r#"{"op":"outline","int":"i32","out":"edges","paths":[[[0,0],[9,0],[0,9]]],"style":{"outer":1,"inner":1}}"#,
        "",
    ),
    (
        r#"{"op":"outline","int":"i32","out":"edges","paths":[],"style":{"outer":1,"inner":1},"options":{}}"#,
        "\"options\" is ignored\n",
    ),
    (
        r#"{"op":"outline","int":"i32","out":"shapes","paths":[],"style":{"outer":1,"inner":1},"options":{"min_aera":4}}"#,
        "options: \"min_aera\" is ignored\n",
    ),
    (
        r#"{"op":"outline","int":"i32","out":"shapes","paths":[],"style":{"outer":1,"inner":1},"options":{"distances":true}}"#,
        "",
    ),
    (
        r#"{"op":"outline","int":"i32","out":"edges","paths":[],"style":{"outer":1,"inner":1,"miter":4},"closed":true}"#,
        "\"closed\" is ignored\nstyle: \"miter\" is ignored\n",
    ),
    (
        r#"{"op":"stroke","int":"i32","out":"edges","closed":true,"paths":[],"style":{"width":2,"cap":"round"}}"#,
        "style: \"cap\" is ignored\n",
    ),
    (
        r#"{"op":"variable_stroke","int":"i32","out":"edges","paths":[],"style":{"width":2},"line\nfeed":0}"#,
        "\"line\\nfeed\" is ignored\nstyle: \"width\" is ignored\n",
    ),
    (
        r#"{"op":"outline","int":"i32","out":"shapes","paths":[[[0,0],[0,9],[9,0]]],"style":{"outer":1,"inner":1}}"#,
        "paths: each contour runs clockwise, as a hole does; outer contours run counterclockwise\n",
    ),
    (
        r#"{"op":"outline","int":"i32","out":"edges","paths":[[[0,0],[0,9],[9,0]],[[0,0],[9,0],[0,9]]],"style":{"outer":1,"inner":1}}"#,
        "",
    ),
    (
        r#"{"op":"boolean","int":"i32","out":"shapes","rule":"union","subject":{"op":"outline","paths":[[[0,0],[0,9],[9,0]]],"style":{"outer":1,"inner":1}},"clip":[[[0,0],[0,9],[9,0]]]}"#,
        "subject.paths: each contour runs clockwise, as a hole does; outer contours run counterclockwise\n",
    ),
    (
        r#"{"op":"coverage","int":"i32","out":"shapes","least":1,"zones":[[],{"op":"outline","paths":[[[0,0],[0,9],[9,0]]],"style":{"outer":1,"inner":1}}]}"#,
        "zones[1].paths: each contour runs clockwise, as a hole does; outer contours run counterclockwise\n",
    ),
];
