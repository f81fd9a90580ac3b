//! Texts that are no request, and what people are told of each: the reason, and then each key that is ignored. Each
//! table has a text, and the lines on standard error. (There are several, since the check of a test takes only so many.)

/// Texts that are no object of JSON, and the lines on standard error.
pub const TEXT_REASONS: &[(&str, &str)] = &[
    ("", "the input is empty\n"),
    (" \n\t\r\n", "the input is empty\n"),
    (
        "\u{feff}{\"op\":\"outline\",\"int\":\"i32\",\"out\":\"edges\",\"paths\":[[[0,0],[9,0],[0,9]]],\"style\":{\"outer\":1,\"inner\":1}}",
        "line 1, column 1: a byte order mark\n",
    ),
    (
        "{\"op\":\"outline\"\n \"int\":\"i32\"}",
        "line 2, column 2: invalid JSON\n",
    ),
    (
        "{\n  \"op\": \"outline\",\n  \"int\": \"i32\" \"out\": \"edges\"\n}",
        "line 3, column 16: invalid JSON\n",
    ),
    (r#"{"op":"outline",}"#, "line 1, column 17: invalid JSON\n"),
    (r#"{"op":"outline""#, "line 1, column 15: invalid JSON\n"),
    ("{'op':'outline'}", "line 1, column 2: invalid JSON\n"),
    (r#"{op:"outline"}"#, "line 1, column 2: invalid JSON\n"),
    ("// a square\n{}", "line 1, column 1: invalid JSON\n"),
    (
        r#"{"op":"outline","int":"i32","out":"edges","paths":[[[0,0],[9,+1]]]}"#,
        "line 1, column 62: invalid JSON\n",
    ),
    (
        r#"{"op":"outline","int":"i32","out":"edges","paths":[[[0,0],[9,NaN]]]}"#,
        "line 1, column 62: invalid JSON\n",
    ),
    ("{} {}", "line 1, column 4: invalid JSON\n"),
    ("[]", "an object is needed\n"),
    ("null", "an object is needed\n"),
];

/// Keys of requests.
pub const KEY_REASONS: &[(&str, &str)] = &[
    ("{}", "\"op\" is missing\n"),
    (
        r#"{"type":"Polygon","coordinates":[[[0,0],[9,0],[0,9],[0,0]]]}"#,
        "\"op\" is missing\n",
    ),
    (
        r#"{"type":"Polygon","coordinates":[[[0.5,0.5],[9,0],[0,9],[0.5,0.5]]]}"#,
        "\"op\" is missing\n",
    ),
    (
        r#"{"op":"offset","int":"i32","out":"edges","paths":[[[0,0],[9,0],[0,9]]],"style":{"outer":1,"inner":1}}"#,
        "op: \"outline\", \"stroke\", \"variable_stroke\", \"boolean\", \"coverage\" or \"overlaps\" is needed\n",
    ),
    (
        r#"{"op":"Outline","int":"i32","out":"edges","paths":[[[0,0],[9,0],[0,9]]],"style":{"outer":1,"inner":1}}"#,
        "op: \"outline\", \"stroke\", \"variable_stroke\", \"boolean\", \"coverage\" or \"overlaps\" is needed\n",
    ),
    (
        r#"{"op":"outline","out":"edges","paths":[[[0,0],[9,0],[0,9]]],"style":{"outer":1,"inner":1}}"#,
        "\"int\" is missing\n",
    ),
    (
        r#"{"op":"outline","int":"i64","out":"edges","paths":[[[0,0],[9,0],[0,9]]],"style":{"outer":1,"inner":1}}"#,
        "int: \"i16\" or \"i32\" is needed\n",
    ),
    (
        r#"{"op":"outline","int":32,"out":"edges","paths":[[[0,0],[9,0],[0,9]]],"style":{"outer":1,"inner":1}}"#,
        "int: \"i16\" or \"i32\" is needed\n",
    ),
    (
        r#"{"op":"outline","int":"i32","paths":[[[0,0],[9,0],[0,9]]],"style":{"outer":1,"inner":1}}"#,
        "\"out\" is missing\n",
    ),
    (
        r#"{"op":"outline","int":"i32","out":"shape","paths":[[[0,0],[9,0],[0,9]]],"style":{"outer":1,"inner":1}}"#,
        "out: \"edges\" or \"shapes\" is needed\n",
    ),
    (
        r#"{"op":"outline","int":"i32","out":"edges","style":{"outer":1,"inner":1}}"#,
        "\"paths\" is missing\n",
    ),
    (
        r#"{"op":"outline","int":"i32","out":"edges","path":[[[0,0],[9,0],[0,9]]],"style":{"outer":1,"inner":1}}"#,
        "\"paths\" is missing\n\"path\" is ignored\n",
    ),
    (
        r#"{"op":"outline","int":"i32","out":"edges","paths":{},"style":{"outer":1,"inner":1}}"#,
        "paths: a list of paths is needed\n",
    ),
];

/// Paths and points.
pub const POINT_REASONS: &[(&str, &str)] = &[
    (
        r#"{"op":"outline","int":"i32","out":"edges","paths":[0,0],"style":{"outer":1,"inner":1}}"#,
        "paths[0]: a path is a list of points\n",
    ),
    (
        r#"{"op":"outline","int":"i32","out":"edges","paths":[[[0,0]],null],"style":{"outer":1,"inner":1}}"#,
        "paths[1]: a path is a list of points\n",
    ),
    (
        r#"{"op":"outline","int":"i32","out":"edges","paths":[[0,0],[9,0],[0,9]],"style":{"outer":1,"inner":1}}"#,
        "paths[0][0]: a point has two numbers\n",
    ),
    (
        r#"{"op":"outline","int":"i32","out":"edges","paths":[[[0,0],[9,0],[9,9],[0,9,5]]],"style":{"outer":1,"inner":1}}"#,
        "paths[0][3]: a point has two numbers\n",
    ),
    (
        r#"{"op":"outline","int":"i32","out":"edges","paths":[[{"x":0,"y":0}]],"style":{"outer":1,"inner":1}}"#,
        "paths[0][0]: a point has two numbers\n",
    ),
    (
        r#"{"op":"outline","int":"i32","out":"edges","paths":[[[0,0],["10",0]]],"style":{"outer":1,"inner":1}}"#,
        "paths[0][1]: a whole number is needed\n",
    ),
    (
        r#"{"op":"outline","int":"i32","out":"edges","paths":[[[0,0],[1.5,0]]],"style":{"outer":1,"inner":1}}"#,
        "paths[0][1]: a whole number is needed\n",
    ),
    (
        r#"{"op":"outline","int":"i32","out":"edges","paths":[[[0,0],[0,1e3]]],"style":{"outer":1,"inner":1}}"#,
        "paths[0][1]: a whole number is needed\n",
    ),
    (
        r#"{"op":"outline","int":"i32","out":"edges","paths":[[[0,0]],[[null,0]]],"style":{"outer":1,"inner":1}}"#,
        "paths[1][0]: a whole number is needed\n",
    ),
    (
        r#"{"op":"outline","int":"i16","out":"edges","paths":[[[0,0],[40000,0]]],"style":{"outer":1,"inner":1}}"#,
        "paths[0][1]: 40000 is no i16\n",
    ),
    (
        r#"{"op":"outline","int":"i16","out":"edges","paths":[[[0,0],[0,-32769]]],"style":{"outer":1,"inner":1}}"#,
        "paths[0][1]: -32769 is no i16\n",
    ),
    (
        r#"{"op":"outline","int":"i32","out":"edges","paths":[[[0,0],[3000000000,0]]],"style":{"outer":1,"inner":1}}"#,
        "paths[0][1]: 3000000000 is no i32\n",
    ),
    (
        r#"{"op":"outline","int":"i32","out":"edges","paths":[[[18446744073709551615,0]]],"style":{"outer":1,"inner":1}}"#,
        "paths[0][0]: 18446744073709551615 is no i32\n",
    ),
];

/// Styles of outlines.
pub const STYLE_REASONS: &[(&str, &str)] = &[
    (
        r#"{"op":"outline","int":"i32","out":"edges","paths":[[[0,0],[9,0],[0,9]]]}"#,
        "\"style\" is missing\n",
    ),
    (
        r#"{"op":"outline","int":"i32","out":"edges","paths":[[[0,0],[9,0],[0,9]]],"style":null}"#,
        "style: an object is needed\n",
    ),
    (
        r#"{"op":"outline","int":"i32","out":"edges","paths":[[[0,0],[9,0],[0,9]]],"style":[1,1]}"#,
        "style: an object is needed\n",
    ),
    (
        r#"{"op":"outline","int":"i32","out":"edges","paths":[[[0,0],[9,0],[0,9]]],"style":{"outter":1,"inner":1}}"#,
        "style: \"outer\" is missing\nstyle: \"outter\" is ignored\n",
    ),
    (
        r#"{"op":"outline","int":"i32","out":"edges","paths":[[[0,0],[9,0],[0,9]]],"style":{"outer":1}}"#,
        "style: \"inner\" is missing\n",
    ),
    (
        r#"{"op":"outline","int":"i32","out":"edges","paths":[[[0,0],[9,0],[0,9]]],"style":{"width":2}}"#,
        "style: \"outer\" is missing\nstyle: \"width\" is ignored\n",
    ),
    (
        r#"{"op":"outline","int":"i32","out":"edges","paths":[[[0,0],[9,0],[0,9]]],"style":{"outer":"10","inner":1}}"#,
        "style.outer: a whole number is needed\n",
    ),
    (
        r#"{"op":"outline","int":"i32","out":"edges","paths":[[[0,0],[9,0],[0,9]]],"style":{"outer":1,"inner":0.5}}"#,
        "style.inner: a whole number is needed\n",
    ),
    (
        r#"{"op":"outline","int":"i16","out":"edges","paths":[[[0,0],[9,0],[0,9]]],"style":{"outer":40000,"inner":1}}"#,
        "style.outer: 40000 is no i16\n",
    ),
    (
        r#"{"op":"outline","int":"i32","out":"edges","paths":[[[0,0],[9,0],[0,9]]],"style":{"outer":1,"inner":1,"join":"round"}}"#,
        "style.join: \"round\" needs [BITS, PRECISION]\n",
    ),
    (
        r#"{"op":"outline","int":"i32","out":"edges","paths":[[[0,0],[9,0],[0,9]]],"style":{"outer":1,"inner":1,"join":{"round":45}}}"#,
        "style.join: \"round\" needs [BITS, PRECISION]\n",
    ),
    (
        r#"{"op":"outline","int":"i32","out":"edges","paths":[[[0,0],[9,0],[0,9]]],"style":{"outer":1,"inner":1,"join":{"round":[536870912]}}}"#,
        "style.join: \"round\" needs [BITS, PRECISION]\n",
    ),
    (
        r#"{"op":"outline","int":"i32","out":"edges","paths":[[[0,0],[9,0],[0,9]]],"style":{"outer":1,"inner":1,"join":{"round":[45.5,5]}}}"#,
        "style.join: \"round\" needs [BITS, PRECISION]\n",
    ),
    (
        r#"{"op":"outline","int":"i32","out":"edges","paths":[[[0,0],[9,0],[0,9]]],"style":{"outer":1,"inner":1,"join":"miter"}}"#,
        "style.join: \"miter\" needs BITS\n",
    ),
    (
        r#"{"op":"outline","int":"i32","out":"edges","paths":[[[0,0],[9,0],[0,9]]],"style":{"outer":1,"inner":1,"join":{"miter":-1}}}"#,
        "style.join: \"miter\" needs BITS\n",
    ),
    (
        r#"{"op":"outline","int":"i32","out":"edges","paths":[[[0,0],[9,0],[0,9]]],"style":{"outer":1,"inner":1,"join":{"miter":4294967296}}}"#,
        "style.join: \"miter\" needs BITS\n",
    ),
    (
        r#"{"op":"outline","int":"i32","out":"edges","paths":[[[0,0],[9,0],[0,9]]],"style":{"outer":1,"inner":1,"join":{"miter":800000000,"limit":4}}}"#,
        "style.join: only one key is allowed\n",
    ),
    (
        r#"{"op":"outline","int":"i32","out":"edges","paths":[[[0,0],[9,0],[0,9]]],"style":{"outer":1,"inner":1,"join":{"round":[1,2],"limit":4}}}"#,
        "style.join: only one key is allowed\n",
    ),
    (
        r#"{"op":"outline","int":"i32","out":"edges","paths":[[[0,0],[9,0],[0,9]]],"style":{"outer":1,"inner":1,"join":"mitre"}}"#,
        "style.join: \"bevel\", {\"miter\": BITS} or {\"round\": [BITS, PRECISION]} is needed\n",
    ),
    (
        r#"{"op":"outline","int":"i32","out":"edges","paths":[[[0,0],[9,0],[0,9]]],"style":{"outer":1,"inner":1,"join":null}}"#,
        "style.join: \"bevel\", {\"miter\": BITS} or {\"round\": [BITS, PRECISION]} is needed\n",
    ),
    (
        r#"{"op":"outline","int":"i32","out":"edges","paths":[[[0,0],[9,0],[0,9]]],"style":{"outer":1,"inner":1,"min_turn":"5"}}"#,
        "style.min_turn: BITS is needed, a whole number from 0 to 4294967295\n",
    ),
];

/// Strokes, and options.
pub const STROKE_REASONS: &[(&str, &str)] = &[
    (
        r#"{"op":"stroke","int":"i32","out":"edges","paths":[[[0,0],[9,0],[0,9]]],"style":{}}"#,
        "style: \"width\" is missing\n",
    ),
    (
        r#"{"op":"stroke","int":"i32","out":"edges","paths":[[[0,0],[9,0],[0,9]]],"style":{"outer":1,"inner":1}}"#,
        "style: \"width\" is missing\nstyle: \"inner\" is ignored\nstyle: \"outer\" is ignored\n",
    ),
    (
        r#"{"op":"stroke","int":"i32","out":"edges","paths":[[[0,0],[9,0],[0,9]]],"style":{"width":"2"}}"#,
        "style.width: a whole number is needed\n",
    ),
    (
        r#"{"op":"stroke","int":"i32","out":"edges","paths":[[[0,0],[9,0],[0,9]]],"style":{"width":2,"side":"middle"}}"#,
        "style.side: \"both\", \"left\" or \"right\" is needed\n",
    ),
    (
        r#"{"op":"stroke","int":"i32","out":"edges","paths":[[[0,0],[9,0],[0,9]]],"style":{"width":2,"start":"flat"}}"#,
        "style.start: \"butt\", \"square\", {\"round\": [BITS, PRECISION]} or {\"custom\": [[X, Y], ..]} is needed\n",
    ),
    (
        r#"{"op":"stroke","int":"i32","out":"edges","paths":[[[0,0],[9,0],[0,9]]],"style":{"width":2,"end":"round"}}"#,
        "style.end: \"round\" needs [BITS, PRECISION]\n",
    ),
    (
        r#"{"op":"stroke","int":"i32","out":"edges","paths":[[[0,0],[9,0],[0,9]]],"style":{"width":2,"end":{"round":[]}}}"#,
        "style.end: \"round\" needs [BITS, PRECISION]\n",
    ),
    (
        r#"{"op":"stroke","int":"i32","out":"edges","paths":[[[0,0],[9,0],[0,9]]],"style":{"width":2,"end":{"custom":[[0,1]],"round":[1,2]}}}"#,
        "style.end: only one key is allowed\n",
    ),
    (
        r#"{"op":"stroke","int":"i32","out":"edges","paths":[[[0,0],[9,0],[0,9]]],"style":{"width":2,"end":{"custom":[[0,1]],"x":0}}}"#,
        "style.end: only one key is allowed\n",
    ),
    (
        r#"{"op":"stroke","int":"i32","out":"edges","paths":[[[0,0],[9,0],[0,9]]],"style":{"width":2,"end":{"custom":5}}}"#,
        "style.end: a path is a list of points\n",
    ),
    (
        r#"{"op":"stroke","int":"i32","out":"edges","paths":[[[0,0],[9,0],[0,9]]],"style":{"width":2,"start":{"custom":[[0,1],[1]]}}}"#,
        "style.start.custom[1]: a point has two numbers\n",
    ),
    (
        r#"{"op":"stroke","int":"i32","out":"edges","paths":[[[0,0],[9,0],[0,9]]],"style":{"width":2,"start":{"custom":[[0,3000000000]]}}}"#,
        "style.start.custom[0]: 3000000000 is no i32\n",
    ),
    (
        r#"{"op":"stroke","int":"i32","out":"edges","closed":1,"paths":[[[0,0],[9,0],[0,9]]],"style":{"width":2}}"#,
        "closed: true or false is needed\n",
    ),
    (
        r#"{"op":"variable_stroke","int":"i32","out":"edges","paths":[[[0,0],[9,0]]],"style":{}}"#,
        "paths[0][0]: a vertex has three numbers\n",
    ),
    (
        r#"{"op":"variable_stroke","int":"i32","out":"edges","paths":[[[0,0,1],[9,0,"2"]]],"style":{}}"#,
        "paths[0][1]: a whole number is needed\n",
    ),
    (
        r#"{"op":"variable_stroke","int":"i32","out":"edges","paths":[[[0,0,1]]],"style":{"arc":5}}"#,
        "style.arc: [BITS, PRECISION] is needed\n",
    ),
    (
        r#"{"op":"variable_stroke","int":"i32","out":"edges","paths":[[[0,0,1]]],"style":5}"#,
        "style: an object is needed\n",
    ),
    (
        r#"{"op":"outline","int":"i16","out":"shapes","paths":[[[0,0],[9,0],[0,9]]],"style":{"outer":1,"inner":1},"options":null}"#,
        "options: an object is needed\n",
    ),
    (
        r#"{"op":"outline","int":"i16","out":"shapes","paths":[[[0,0],[9,0],[0,9]]],"style":{"outer":1,"inner":1},"options":{"min_area":-1}}"#,
        "options.min_area: an area is a whole number from 0 on that fits its type\n",
    ),
    (
        r#"{"op":"outline","int":"i16","out":"shapes","paths":[[[0,0],[9,0],[0,9]]],"style":{"outer":1,"inner":1},"options":{"min_area":4294967296}}"#,
        "options.min_area: an area is a whole number from 0 on that fits its type\n",
    ),
    (
        r#"{"op":"outline","int":"i16","out":"shapes","paths":[[[0,0],[9,0],[0,9]]],"style":{"outer":1,"inner":1},"options":{"clockwise":1}}"#,
        "options.clockwise: true or false is needed\n",
    ),
    (
        r#"{"op":"outline","int":"i16","out":"shapes","paths":[[[0,0],[9,0],[0,9]]],"style":{"outer":1,"inner":1},"options":{"collinear":"true"}}"#,
        "options.collinear: true or false is needed\n",
    ),
    (
        r#"{"op":"outline","int":"i16","out":"shapes","paths":[[[0,0],[9,0],[0,9]]],"style":{"outer":1,"inner":1},"options":{"distances":1}}"#,
        "options.distances: true or false is needed\n",
    ),
    (
        r#"{"op":"outline","int":"i32","out":"edges","paths":[[[0,0],[9,0],[0,9]]],"style":{"outer":1,"inner":1},"scale":0.5}"#,
        "a number is no whole number from -2^63 to 2^64-1, under a key that is ignored\n\"scale\" is ignored\n",
    ),
    (
        r#"{"op":"outline","int":"i32","out":"edges","paths":[[[0,0],[9,0],[0,9]]],"style":{"outer":1,"inner":1},"options":{"min_area":0.5}}"#,
        "a number is no whole number from -2^63 to 2^64-1, under a key that is ignored\n\"options\" is ignored\n",
    ),
];
