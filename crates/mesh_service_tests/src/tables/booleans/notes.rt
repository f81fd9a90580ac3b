//! Requests for what is made of operands that are refused or answered, and what people are told of each.

/// A request that is refused, and why.
pub const COMBINATIONS_REFUSED: &[(&str, &str)] = &[
    (
        r#"{"op":"boolean","int":"i16","out":"shapes","rule":"union","subject":[],"clip":[[[16384,0],[16385,0],[16384,1]]]}"#,
        "clip[0][0]: it leaves the range from -16383 to 16383\n",
    ),
    (
        r#"{"op":"boolean","int":"i32","out":"shapes","rule":"subject","subject":[[[0,0],[4,0],[4,4],[0,4]]],"clip":[[[1073741824,0]]]}"#,
        "clip[0][0]: it leaves the range from -1073741823 to 1073741823\n",
    ),
    (
        r#"{"op":"boolean","int":"i16","out":"shapes","rule":"clip","subject":[[],[[0,0],[0,-16384]]],"clip":[[[32767,0]]]}"#,
        "subject[1][1]: it leaves the range from -16383 to 16383\n",
    ),
    (
        r#"{"op":"boolean","int":"i16","out":"shapes","rule":"union","subject":{"op":"outline","paths":[[[0,0],[15360,0]]],"style":{"outer":1024,"inner":0}},"clip":[]}"#,
        "subject: paths[0][1]: with the padding 1024 it leaves the range from -16383 to 16383\n",
    ),
    (
        r#"{"op":"coverage","int":"i16","out":"shapes","zones":[[],[[[0,0],[16384,0]]]],"least":2}"#,
        "zones[1][0][1]: it leaves the range from -16383 to 16383\n",
    ),
    (
        r#"{"op":"overlaps","int":"i32","out":"shapes","zones":[[],{"op":"stroke","paths":[[[1073741823,0]]],"style":{"width":2}}],"extra":1}"#,
        "zones[1]: paths[0][0]: with the padding 1 it leaves the range from -1073741823 to 1073741823\n\"extra\" is ignored\n",
    ),
];

/// A request that is answered, and what of it is ignored.
pub const COMBINATIONS_ANSWERED: &[(&str, &str)] = &[
    (
        r#"{"op":"boolean","int":"i32","out":"shapes","rule":"union","subject":[],"clip":[],"fill":{"subject":"positive","clip":"positive"},"options":{"min_area":1}}"#,
        "",
    ),
    (
        r#"{"op":"boolean","int":"i32","out":"shapes","rule":"union","subject":[],"clip":[],"least":2,"zones":[],"style":{},"fill":{"subject":"positive","clip":"positive","zone":0},"options":{"area":1}}"#,
        "\"least\" is ignored\n\"style\" is ignored\n\"zones\" is ignored\nfill: \"zone\" is ignored\noptions: \"area\" is ignored\n",
    ),
    (
        r#"{"op":"boolean","int":"i32","out":"shapes","rule":"union","subject":{"op":"stroke","int":"i32","paths":[],"closed":false,"style":{"width":2}},"clip":{"op":"outline","closed":true,"options":{},"paths":[],"style":{"outer":1,"inner":1,"width":3}}}"#,
        "subject: \"int\" is ignored\nclip: \"closed\" is ignored\nclip: \"options\" is ignored\nclip.style: \"width\" is ignored\n",
    ),
    (
        r#"{"op":"coverage","int":"i32","out":"shapes","zones":[[],{"op":"variable_stroke","paths":[],"style":{"width":2},"out":"edges"}],"least":1,"rule":"union"}"#,
        "\"rule\" is ignored\nzones[1]: \"out\" is ignored\nzones[1].style: \"width\" is ignored\n",
    ),
    (
        r#"{"op":"overlaps","int":"i32","out":"shapes","zones":[],"least":1,"fill":"positive","options":{"collinear":true,"distances":true}}"#,
        "\"least\" is ignored\noptions: \"distances\" is ignored\n",
    ),
];
