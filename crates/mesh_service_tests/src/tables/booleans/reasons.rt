//! Requests for what is made of operands that are none, and what people are told of each: the reason, and then each key
//! that is ignored.

/// Keys of booleans.
pub const BOOLEAN_REASONS: &[(&str, &str)] = &[
    (
        r#"{"op":"boolean","out":"shapes","rule":"union","subject":[],"clip":[]}"#,
        "\"int\" is missing\n",
    ),
    (
        r#"{"op":"boolean","int":"i64","out":"shapes","rule":"union","subject":[],"clip":[]}"#,
        "int: \"i16\" or \"i32\" is needed\n",
    ),
    (
        r#"{"op":"boolean","int":"i32","rule":"union","subject":[],"clip":[]}"#,
        "\"out\" is missing\n",
    ),
    (
        r#"{"op":"boolean","int":"i32","out":"edges","rule":"union","subject":[],"clip":[]}"#,
        "out: \"shapes\" is needed\n",
    ),
    (
        r#"{"op":"boolean","int":"i32","out":"shapes","subject":[],"clip":[]}"#,
        "\"rule\" is missing\n",
    ),
    (
        r#"{"op":"boolean","int":"i32","out":"shapes","rule":"intersection","subject":[],"clip":[]}"#,
        "rule: \"subject\", \"clip\", \"intersect\", \"union\", \"difference\", \"inverse_difference\" or \"xor\" is needed\n",
    ),
    (
        r#"{"op":"boolean","int":"i32","out":"shapes","rule":4,"subject":[],"clip":[]}"#,
        "rule: \"subject\", \"clip\", \"intersect\", \"union\", \"difference\", \"inverse_difference\" or \"xor\" is needed\n",
    ),
    (
        r#"{"op":"boolean","int":"i32","out":"shapes","rule":"union","clip":[]}"#,
        "\"subject\" is missing\n",
    ),
    (
        r#"{"op":"boolean","int":"i32","out":"shapes","rule":"subject","subject":[]}"#,
        "\"clip\" is missing\n",
    ),
    (
        r#"{"op":"boolean","int":"i32","out":"shapes","rule":"union","subject":[],"clip":[],"fill":"odd"}"#,
        "fill: \"even_odd\", \"non_zero\", \"positive\", \"negative\" or {\"subject\": FILL, \"clip\": FILL} is needed\n",
    ),
    (
        r#"{"op":"boolean","int":"i32","out":"shapes","rule":"union","subject":[],"clip":[],"fill":null}"#,
        "fill: \"even_odd\", \"non_zero\", \"positive\", \"negative\" or {\"subject\": FILL, \"clip\": FILL} is needed\n",
    ),
    (
        r#"{"op":"boolean","int":"i32","out":"shapes","rule":"union","subject":[],"clip":[],"fill":{"clip":"positive"}}"#,
        "fill: \"subject\" is missing\n",
    ),
    (
        r#"{"op":"boolean","int":"i32","out":"shapes","rule":"union","subject":[],"clip":[],"fill":{"subject":"positive"}}"#,
        "fill: \"clip\" is missing\n",
    ),
    (
        r#"{"op":"boolean","int":"i32","out":"shapes","rule":"union","subject":[],"clip":[],"fill":{"subject":"positive","clip":["negative"]}}"#,
        "fill.clip: \"even_odd\", \"non_zero\", \"positive\" or \"negative\" is needed\n",
    ),
    (
        r#"{"op":"boolean","int":"i32","out":"shapes","rule":"union","subject":[],"clip":[],"options":[]}"#,
        "options: an object is needed\n",
    ),
    (
        r#"{"op":"boolean","int":"i32","out":"shapes","rule":"union","subject":[],"clip":[],"options":{"min_area":0.5}}"#,
        "options.min_area: an area is a whole number from 0 on that fits its type\n",
    ),
    (
        r#"{"op":"boolean","int":"i32","out":"shapes","rule":"union","subject":[],"clip":[],"scale":0.5}"#,
        "a number is no whole number from -2^63 to 2^64-1, under a key that is ignored\n\"scale\" is ignored\n",
    ),
];

/// Operands.
pub const OPERAND_REASONS: &[(&str, &str)] = &[
    (
        r#"{"op":"boolean","int":"i32","out":"shapes","rule":"union","subject":null,"clip":[]}"#,
        "subject: a list of paths or an object with \"op\", \"paths\" and \"style\" is needed\n",
    ),
    (
        r#"{"op":"boolean","int":"i32","out":"shapes","rule":"union","subject":[],"clip":"square"}"#,
        "clip: a list of paths or an object with \"op\", \"paths\" and \"style\" is needed\n",
    ),
    (
        r#"{"op":"boolean","int":"i32","out":"shapes","rule":"union","subject":[[[0,0],[4,0],[4]]],"clip":[]}"#,
        "subject: a point has two numbers\n",
    ),
    (
        r#"{"op":"boolean","int":"i32","out":"shapes","rule":"union","subject":[],"clip":[[0,0],[4,0],[4,4]]}"#,
        "clip: a point has two numbers\n",
    ),
    (
        r#"{"op":"boolean","int":"i16","out":"shapes","rule":"subject","subject":[],"clip":[[[32768,0]]]}"#,
        "clip: 32768 is no i16\n",
    ),
    (
        r#"{"op":"boolean","int":"i32","out":"shapes","rule":"union","subject":{},"clip":[]}"#,
        "subject: \"op\" is missing\n",
    ),
    (
        r#"{"op":"boolean","int":"i32","out":"shapes","rule":"union","subject":{"op":"boolean","rule":"union","subject":[],"clip":[]},"clip":[]}"#,
        "subject: \"outline\", \"stroke\" or \"variable_stroke\" is needed\n",
    ),
    (
        r#"{"op":"boolean","int":"i32","out":"shapes","rule":"union","subject":[],"clip":{"op":"outline","paths":[]}}"#,
        "clip: \"style\" is missing\n",
    ),
    (
        r#"{"op":"boolean","int":"i32","out":"shapes","rule":"union","subject":[],"clip":{"op":"stroke","style":{"width":2}}}"#,
        "clip: \"paths\" is missing\n",
    ),
    (
        r#"{"op":"boolean","int":"i32","out":"shapes","rule":"union","subject":[],"clip":{"op":"stroke","paths":[],"style":{"width":"2","cap":0}}}"#,
        "clip: a whole number is needed\nclip.style: \"cap\" is ignored\n",
    ),
];

/// Keys of coverages and overlaps, and zones.
pub const ZONE_REASONS: &[(&str, &str)] = &[
    (
        r#"{"op":"coverage","int":"i32","out":"shapes","zones":[]}"#,
        "\"least\" is missing\n",
    ),
    (
        r#"{"op":"coverage","int":"i32","out":"shapes","zones":[],"least":0}"#,
        "least: a whole number from 1 to 4294967295 is needed\n",
    ),
    (
        r#"{"op":"coverage","int":"i32","out":"shapes","zones":[],"least":4294967296}"#,
        "least: a whole number from 1 to 4294967295 is needed\n",
    ),
    (
        r#"{"op":"coverage","int":"i32","out":"shapes","zones":[],"least":-1}"#,
        "least: a whole number from 1 to 4294967295 is needed\n",
    ),
    (
        r#"{"op":"coverage","int":"i32","out":"shapes","zones":[],"least":"2"}"#,
        "least: a whole number from 1 to 4294967295 is needed\n",
    ),
    (
        r#"{"op":"coverage","int":"i32","out":"shapes","least":2}"#,
        "\"zones\" is missing\n",
    ),
    (
        r#"{"op":"coverage","int":"i32","out":"shapes","zones":{},"least":2}"#,
        "zones: a list of zones is needed\n",
    ),
    (
        r#"{"op":"coverage","int":"i32","out":"shapes","zones":[],"least":2,"fill":{"subject":"positive","clip":"positive"}}"#,
        "fill: \"even_odd\", \"non_zero\", \"positive\" or \"negative\" is needed\n",
    ),
    (
        r#"{"op":"coverage","int":"i32","out":"edges","zones":[],"least":2}"#,
        "out: \"shapes\" is needed\n",
    ),
    (
        r#"{"op":"overlaps","int":"i32","out":"shapes","zones":5}"#,
        "zones: a list of zones is needed\n",
    ),
    (
        r#"{"op":"overlaps","int":"i32","out":"shapes"}"#,
        "\"zones\" is missing\n",
    ),
    (
        r#"{"op":"overlaps","int":"i32","out":"shapes","zones":[[],5]}"#,
        "zones[1]: a list of paths or an object with \"op\", \"paths\" and \"style\" is needed\n",
    ),
    (
        r#"{"op":"overlaps","int":"i32","out":"shapes","zones":[[],[5]]}"#,
        "zones[1]: a path is a list of points\n",
    ),
    (
        r#"{"op":"overlaps","int":"i32","out":"shapes","zones":[{"op":"outline","paths":[],"style":{"outer":1,"inner":1,"join":"mitre"}}]}"#,
        "zones[0]: \"bevel\", {\"miter\": BITS} or {\"round\": [BITS, PRECISION]} is needed\n",
    ),
    (
        r#"{"op":"overlaps","int":"i32","out":"shapes","zones":[],"fill":"odd"}"#,
        "fill: \"even_odd\", \"non_zero\", \"positive\" or \"negative\" is needed\n",
    ),
    (
        r#"{"op":"overlap","int":"i32","out":"shapes","zones":[]}"#,
        "op: \"outline\", \"stroke\", \"variable_stroke\", \"boolean\", \"coverage\" or \"overlaps\" is needed\n",
    ),
];
