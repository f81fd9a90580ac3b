//! Requests for edges that are answered.

/// A request, and its answer.
pub const EDGES: &[(&str, &str)] = &[
    // one path
    (
        r#"{"op":"outline","int":"i32","out":"edges","paths":[[[0,0],[16384,0],[16384,16384],[0,16384]]],"style":{"outer":1024,"inner":1024}}"#,
        r#"{"edges":[[[[-1024,0],[0,-1024]],[[-1024,16384],[-1024,0]],[[0,-1024],[16384,-1024]],[[0,17408],[-1024,16384]],[[16384,-1024],[17408,0]],[[16384,17408],[0,17408]],[[17408,0],[17408,16384]],[[17408,16384],[16384,17408]]]]}"#,
    ),
    (
        r#"{"op":"outline","int":"i32","out":"edges","paths":[[[0,0],[16384,0],[16384,16384],[0,16384]]],"style":{"outer":-1024,"inner":-1024}}"#,
        r#"{"edges":[[[[0,0],[0,1024]],[[0,1024],[16384,1024]],[[0,15360],[0,16384]],[[0,16384],[1024,16384]],[[1024,0],[0,0]],[[1024,16384],[1024,0]],[[15360,0],[15360,16384]],[[15360,16384],[16384,16384]],[[16384,0],[15360,0]],[[16384,1024],[16384,0]],[[16384,15360],[0,15360]],[[16384,16384],[16384,15360]]]]}"#,
    ),
    (
        r#"{"op":"outline","int":"i32","out":"edges","paths":[[[0,16384],[16384,16384],[16384,0],[0,0]]],"style":{"outer":0,"inner":0}}"#,
        r#"{"edges":[[[[0,0],[0,16384]],[[0,16384],[16384,16384]],[[16384,0],[0,0]],[[16384,16384],[16384,0]]]]}"#,
    ),
    (
        r#"{"op":"outline","int":"i32","out":"edges","paths":[[[1073740799,0]]],"style":{"outer":1024,"inner":1024}}"#,
        r#"{"edges":[[]]}"#,
    ),
    (
        r#"{"op":"outline","int":"i32","out":"edges","paths":[[]],"style":{"outer":1073741823,"inner":1073741823}}"#,
        r#"{"edges":[[]]}"#,
    ),
    (
        r#"{"op":"outline","int":"i32","out":"edges","paths":[[[0,0],[8192,0],[0,0],[8192,0]]],"style":{"outer":1,"inner":1}}"#,
        r#"{"edges":[[]]}"#,
    ),
    // a list of edges for each path, in the order of the paths
    (
        r#"{"op":"outline","int":"i32","out":"edges","paths":[],"style":{"outer":1,"inner":1}}"#,
        r#"{"edges":[]}"#,
    ),
    (
        r#"{"op":"outline","int":"i32","out":"edges","paths":[[],[[0,0]],[[0,0],[8,0],[0,0],[8,0]]],"style":{"outer":1,"inner":1}}"#,
        r#"{"edges":[[],[],[]]}"#,
    ),
    (
        r#"{"op":"outline","int":"i32","out":"edges","paths":[[[2,2],[2,6],[6,6],[6,2]],[[0,0]],[[0,0],[8,0],[8,8],[0,8]]],"style":{"outer":0,"inner":0}}"#,
        r#"{"edges":[[[[2,2],[2,6]],[[2,6],[6,6]],[[6,2],[2,2]],[[6,6],[6,2]]],[],[[[0,0],[8,0]],[[0,8],[0,0]],[[8,0],[8,8]],[[8,8],[0,8]]]]}"#,
    ),
    // coordinates of 16 bits, to the ends of the safe range and of the type
    (
        r#"{"op":"outline","int":"i16","out":"edges","paths":[[[0,0],[8,0],[8,8],[0,8]],[[2,2],[2,6],[6,6],[6,2]]],"style":{"outer":2,"inner":1}}"#,
        r#"{"edges":[[[[-2,0],[0,-2]],[[-2,8],[-2,0]],[[0,-2],[8,-2]],[[0,10],[-2,8]],[[8,-2],[10,0]],[[8,10],[0,10]],[[10,0],[10,8]],[[10,8],[8,10]]],[[[2,2],[3,2]],[[2,3],[2,2]],[[2,5],[6,5]],[[2,6],[2,5]],[[3,2],[3,6]],[[3,6],[2,6]],[[5,2],[6,2]],[[5,6],[5,2]],[[6,2],[6,3]],[[6,3],[2,3]],[[6,5],[6,6]],[[6,6],[5,6]]]]}"#,
    ),
    (
        r#"{"op":"outline","int":"i16","out":"edges","paths":[[[-16383,-16383],[16383,-16383],[16383,16383],[-16383,16383]]],"style":{"outer":0,"inner":0}}"#,
        r#"{"edges":[[[[-16383,-16383],[16383,-16383]],[[-16383,16383],[-16383,-16383]],[[16383,-16383],[16383,16383]],[[16383,16383],[-16383,16383]]]]}"#,
    ),
    (
        r#"{"op":"outline","int":"i16","out":"edges","paths":[[[15359,0]]],"style":{"outer":1024,"inner":-1024}}"#,
        r#"{"edges":[[]]}"#,
    ),
    (
        r#"{"op":"outline","int":"i16","out":"edges","paths":[[]],"style":{"outer":-32768,"inner":32767}}"#,
        r#"{"edges":[[]]}"#,
    ),
    // what may stand beside the keys of the operation
    (
        r#"{"op":"outline","int":"i32","out":"edges","paths":[[[0,0]]],"style":{"outer":1,"inner":1,"arc":null}}"#,
        r#"{"edges":[[]]}"#,
    ),
    (
        r#"{"op":"outline","int":"i32","out":"edges","paths":[[[0,0]]],"style":{"outer":1,"inner":1},"options":null,"closed":3}"#,
        r#"{"edges":[[]]}"#,
    ),
    (
        r#"{"op":"outline","int":"i32","out":"edges","paths":[[[0,0]]], "style" : {"outer":1,"inner":1},"n":[18446744073709551615,-9223372036854775808] }
"#,
        r#"{"edges":[[]]}"#,
    ),
    (
        r#"{"op":"outline","int":"i32","out":"edges","paths":[[[0,0]]],"style":{"outer":1,"inner":1,"join":"bevel","side":7}}"#,
        r#"{"edges":[[]]}"#,
    ),
    (
        r#"{"op":"outline","int":"i32","out":"edges","paths":[[[0,0]]],"style":{"outer":1,"inner":1,"width":1,"start":"butt","end":"square"}}"#,
        r#"{"edges":[[]]}"#,
    ),
    (
        r#"{"op":"outline","int":"i32","out":"edges","paths":[[[0,0]]],"style":{"outer":1,"inner":1,"width":null,"start":7,"end":{"custom":[1]}}}"#,
        r#"{"edges":[[]]}"#,
    ),
    // options, which are for shapes alone
    (
        r#"{"op":"outline","int":"i16","out":"edges","paths":[[[0,0]]],"style":{"outer":1,"inner":1},"options":null}"#,
        r#"{"edges":[[]]}"#,
    ),
    (
        r#"{"op":"outline","int":"i16","out":"edges","paths":[[[0,0]]],"style":{"outer":1,"inner":1},"options":[]}"#,
        r#"{"edges":[[]]}"#,
    ),
    (
        r#"{"op":"outline","int":"i16","out":"edges","paths":[[[0,0]]],"style":{"outer":1,"inner":1},"options":{"min_area":-1}}"#,
        r#"{"edges":[[]]}"#,
    ),
    (
        r#"{"op":"outline","int":"i16","out":"edges","paths":[[[0,0]]],"style":{"outer":1,"inner":1},"options":{"clockwise":1}}"#,
        r#"{"edges":[[]]}"#,
    ),
];
