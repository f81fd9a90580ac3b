//! Booleans that are answered: what their rules keep of two operands.

/// A request, and its answer.
pub const BOOLEANS: &[(&str, &str)] = &[
    // each rule, of two squares that overlap
    (
        r#"{"op":"boolean","int":"i32","out":"shapes","rule":"union","subject":[[[0,0],[4,0],[4,4],[0,4]]],"clip":[[[2,2],[6,2],[6,6],[2,6]]]}"#,
        r#"{"shapes":[[[[0,0],[4,0],[4,2],[6,2],[6,6],[2,6],[2,4],[0,4]]]]}"#,
    ),
    (
        r#"{"op":"boolean","int":"i32","out":"shapes","rule":"intersect","subject":[[[0,0],[4,0],[4,4],[0,4]]],"clip":[[[2,2],[6,2],[6,6],[2,6]]]}"#,
        r#"{"shapes":[[[[2,2],[4,2],[4,4],[2,4]]]]}"#,
    ),
    (
        r#"{"op":"boolean","int":"i32","out":"shapes","rule":"difference","subject":[[[0,0],[4,0],[4,4],[0,4]]],"clip":[[[2,2],[6,2],[6,6],[2,6]]]}"#,
        r#"{"shapes":[[[[0,0],[4,0],[4,2],[2,2],[2,4],[0,4]]]]}"#,
    ),
    (
        r#"{"op":"boolean","int":"i32","out":"shapes","rule":"inverse_difference","subject":[[[0,0],[4,0],[4,4],[0,4]]],"clip":[[[2,2],[6,2],[6,6],[2,6]]]}"#,
        r#"{"shapes":[[[[2,4],[4,4],[4,2],[6,2],[6,6],[2,6]]]]}"#,
    ),
    (
        r#"{"op":"boolean","int":"i32","out":"shapes","rule":"xor","subject":[[[0,0],[4,0],[4,4],[0,4]]],"clip":[[[2,2],[6,2],[6,6],[2,6]]]}"#,
        r#"{"shapes":[[[[0,0],[4,0],[4,2],[2,2],[2,4],[0,4]]],[[[2,4],[4,4],[4,2],[6,2],[6,6],[2,6]]]]}"#,
    ),
    (
        r#"{"op":"boolean","int":"i32","out":"shapes","rule":"subject","subject":[[[0,0],[4,0],[4,4],[0,4]]],"clip":[[[2,2],[6,2],[6,6],[2,6]]]}"#,
        r#"{"shapes":[[[[0,0],[4,0],[4,4],[0,4]]]]}"#,
    ),
    (
        r#"{"op":"boolean","int":"i32","out":"shapes","rule":"clip","subject":[[[0,0],[4,0],[4,4],[0,4]]],"clip":[[[2,2],[6,2],[6,6],[2,6]]],"options":{"clockwise":true}}"#,
        r#"{"shapes":[[[[2,2],[2,6],[6,6],[6,2]]]]}"#,
    ),
    // a common edge, and a common corner
    (
        r#"{"op":"boolean","int":"i32","out":"shapes","rule":"union","subject":[[[0,0],[4,0],[4,4],[0,4]]],"clip":[[[4,0],[8,0],[8,4],[4,4]]]}"#,
        r#"{"shapes":[[[[0,0],[8,0],[8,4],[0,4]]]]}"#,
    ),
    (
        r#"{"op":"boolean","int":"i32","out":"shapes","rule":"intersect","subject":[[[0,0],[4,0],[4,4],[0,4]]],"clip":[[[4,0],[8,0],[8,4],[4,4]]]}"#,
        r#"{"shapes":[]}"#,
    ),
    (
        r#"{"op":"boolean","int":"i32","out":"shapes","rule":"union","subject":[[[0,0],[4,0],[4,4],[0,4]]],"clip":[[[4,4],[8,4],[8,8],[4,8]]]}"#,
        r#"{"shapes":[[[[0,0],[4,0],[4,4],[0,4]]],[[[4,4],[8,4],[8,8],[4,8]]]]}"#,
    ),
    // a hole, and equal operands
    (
        r#"{"op":"boolean","int":"i32","out":"shapes","rule":"difference","subject":[[[0,0],[4,0],[4,4],[0,4]]],"clip":[[[1,1],[3,1],[3,3],[1,3]]]}"#,
        r#"{"shapes":[[[[0,0],[4,0],[4,4],[0,4]],[[1,1],[1,3],[3,3],[3,1]]]]}"#,
    ),
    (
        r#"{"op":"boolean","int":"i32","out":"shapes","rule":"difference","subject":[[[0,0],[4,0],[4,4],[0,4]]],"clip":[[[0,0],[4,0],[4,4],[0,4]]]}"#,
        r#"{"shapes":[]}"#,
    ),
    (
        r#"{"op":"boolean","int":"i32","out":"shapes","rule":"xor","subject":[[[0,0],[4,0],[4,4],[0,4]]],"clip":[[[0,4],[4,4],[4,0],[0,0]]]}"#,
        r#"{"shapes":[]}"#,
    ),
    // fill rules
    (
        r#"{"op":"boolean","int":"i32","out":"shapes","rule":"intersect","subject":[[[0,0],[4,0],[4,4],[0,4]],[[2,2],[6,2],[6,6],[2,6]]],"clip":[[[0,0],[6,0],[6,6],[0,6]]],"fill":"even_odd"}"#,
        r#"{"shapes":[[[[0,0],[4,0],[4,2],[2,2],[2,4],[0,4]]],[[[2,4],[4,4],[4,2],[6,2],[6,6],[2,6]]]]}"#,
    ),
    (
        r#"{"op":"boolean","int":"i32","out":"shapes","rule":"intersect","subject":[[[0,0],[4,0],[4,4],[0,4]],[[2,2],[6,2],[6,6],[2,6]]],"clip":[[[0,0],[6,0],[6,6],[0,6]]]}"#,
        r#"{"shapes":[[[[0,0],[4,0],[4,2],[6,2],[6,6],[2,6],[2,4],[0,4]]]]}"#,
    ),
    (
        r#"{"op":"boolean","int":"i32","out":"shapes","rule":"intersect","subject":[[[0,4],[4,4],[4,0],[0,0]]],"clip":[[[2,2],[6,2],[6,6],[2,6]]],"fill":{"subject":"negative","clip":"positive"}}"#,
        r#"{"shapes":[[[[2,2],[4,2],[4,4],[2,4]]]]}"#,
    ),
    (
        r#"{"op":"boolean","int":"i32","out":"shapes","rule":"difference","subject":[[[0,4],[4,4],[4,0],[0,0]]],"clip":[[[2,2],[6,2],[6,6],[2,6]]],"fill":"positive"}"#,
        r#"{"shapes":[]}"#,
    ),
    // no clip
    (
        r#"{"op":"boolean","int":"i32","out":"shapes","rule":"difference","subject":[[[0,0],[4,0],[4,4],[0,4]]],"clip":[]}"#,
        r#"{"shapes":[[[[0,0],[4,0],[4,4],[0,4]]]]}"#,
    ),
    // paths of fewer than three points have no area
    (
        r#"{"op":"boolean","int":"i16","out":"shapes","rule":"union","subject":[[],[[0,0]],[[0,0],[4,0]]],"clip":[]}"#,
        r#"{"shapes":[]}"#,
    ),
    // options: a crumb below the least area
    (
        r#"{"op":"boolean","int":"i32","out":"shapes","rule":"difference","subject":[[[0,0],[4,0],[4,4],[0,4]]],"clip":[[[1,0],[5,0],[5,5],[0,5],[0,1],[1,1]]],"options":{"min_area":2}}"#,
        r#"{"shapes":[]}"#,
    ),
    (
        r#"{"op":"boolean","int":"i32","out":"shapes","rule":"union","subject":[[[0,0],[4,0],[4,4],[0,4]]],"clip":[[[4,0],[8,0],[8,4],[4,4]]],"options":{"collinear":true}}"#,
        r#"{"shapes":[[[[0,0],[4,0],[8,0],[8,4],[4,4],[0,4]]]]}"#,
    ),
    // the last safe coordinates
    (
        r#"{"op":"boolean","int":"i16","out":"shapes","rule":"union","subject":[[[-16383,-16383],[16383,-16383],[16383,16383],[-16383,16383]]],"clip":[]}"#,
        r#"{"shapes":[[[[-16383,-16383],[16383,-16383],[16383,16383],[-16383,16383]]]]}"#,
    ),
];

/// The same where an operand is what is drawn of paths: a pocket round an island, and the clearance of two tracks.
pub const DRAWN_BOOLEANS: &[(&str, &str)] = &[
    (
        r#"{"op":"boolean","int":"i32","out":"shapes","rule":"difference","subject":{"op":"outline","paths":[[[0,0],[20,0],[20,20],[0,20]]],"style":{"outer":-2,"inner":-2}},"clip":{"op":"outline","paths":[[[8,8],[12,8],[12,12],[8,12]]],"style":{"outer":2,"inner":2,"join":{"miter":536870912}}}}"#,
        r#"{"shapes":[[[[2,2],[18,2],[18,18],[2,18]],[[6,6],[6,14],[14,14],[14,6]]]]}"#,
    ),
    (
        r#"{"op":"boolean","int":"i32","out":"shapes","rule":"intersect","subject":{"op":"stroke","paths":[[[0,0],[20,0]]],"style":{"width":8}},"clip":{"op":"stroke","paths":[[[0,6],[20,6]]],"style":{"width":8}}}"#,
        r#"{"shapes":[[[[0,2],[20,2],[20,4],[0,4]]]]}"#,
    ),
    (
        r#"{"op":"boolean","int":"i32","out":"shapes","rule":"intersect","subject":{"op":"stroke","paths":[[[0,0],[20,0]]],"style":{"width":8}},"clip":{"op":"stroke","paths":[[[0,8],[20,8]]],"style":{"width":8}}}"#,
        r#"{"shapes":[]}"#,
    ),
    // fill rules do not concern it
    (
        r#"{"op":"boolean","int":"i32","out":"shapes","rule":"subject","subject":{"op":"stroke","paths":[[[0,0],[20,0]]],"style":{"width":8}},"clip":[],"fill":"negative"}"#,
        r#"{"shapes":[[[[0,-4],[20,-4],[20,4],[0,4]]]]}"#,
    ),
    // contours cut off what is drawn
    (
        r#"{"op":"boolean","int":"i32","out":"shapes","rule":"difference","subject":{"op":"stroke","closed":true,"paths":[[[0,0],[20,0],[20,20],[0,20]]],"style":{"width":4}},"clip":[[[10,-9],[30,-9],[30,29],[10,29]]]}"#,
        r#"{"shapes":[[[[-2,0],[0,-2],[10,-2],[10,2],[2,2],[2,18],[10,18],[10,22],[0,22],[-2,20]]]]}"#,
    ),
    (
        r#"{"op":"boolean","int":"i16","out":"shapes","rule":"union","subject":{"op":"variable_stroke","paths":[[[0,0,0],[9,0,0]]],"style":{}},"clip":[[[0,0],[4,0],[4,4],[0,4]]]}"#,
        r#"{"shapes":[[[[0,0],[4,0],[4,4],[0,4]]]]}"#,
    ),
];
