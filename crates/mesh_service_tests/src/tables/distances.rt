//! Requests that ask for distances, and those that do not. What comes nearest is worked out by hand, or by exact
//! fractions in a few lines of Python; a stroke with the radius 10 holds what is at most 10 * 10 - 2 away, squared.

/// A request, and its answer.
pub const DISTANCES: &[(&str, &str)] = &[
    // a stroke: butt caps run through the ends of its path, square caps do not, and closed paths have none
    (
        r#"{"op":"stroke","int":"i32","out":"shapes","paths":[[[0,0],[100,0]]],"style":{"width":20},"options":{"distances":true}}"#,
        r#"{"clearance2":0,"reach2":98,"shapes":[[[[0,-10],[100,-10],[100,10],[0,10]]]]}"#,
    ),
    (
        r#"{"op":"stroke","int":"i16","out":"shapes","paths":[[[0,0],[100,0]]],"style":{"width":20,"start":"square","end":"square"},"options":{"distances":true}}"#,
        r#"{"clearance2":100,"reach2":98,"shapes":[[[[-10,-10],[110,-10],[110,10],[-10,10]]]]}"#,
    ),
    (
        r#"{"op":"stroke","int":"i32","out":"shapes","paths":[[[0,0],[100,0],[100,100],[0,100]]],"style":{"width":20,"join":{"miter":536870912}},"closed":true,"options":{"distances":true}}"#,
        r#"{"clearance2":100,"reach2":98,"shapes":[[[[-10,-10],[110,-10],[110,110],[-10,110]],[[10,10],[10,90],[90,90],[90,10]]]]}"#,
    ),
    // one side alone, which holds nothing for certain, and a width that draws nothing
    (
        r#"{"op":"stroke","int":"i32","out":"shapes","paths":[[[0,0],[100,0]]],"style":{"width":20,"side":"left"},"options":{"distances":true}}"#,
        r#"{"clearance2":0,"reach2":null,"shapes":[[[[0,0],[100,0],[100,10],[0,10]]]]}"#,
    ),
    (
        r#"{"op":"stroke","int":"i32","out":"shapes","paths":[[[0,0],[10,0]]],"style":{"width":2},"options":{"distances":true}}"#,
        r#"{"clearance2":null,"reach2":null,"shapes":[]}"#,
    ),
    // bevels are nearer to corners than sides are to sides; 2450/29 and 361/17 are rounded down
    (
        r#"{"op":"outline","int":"i32","out":"shapes","paths":[[[0,0],[16384,0],[16384,16384],[0,16384]]],"style":{"outer":1024,"inner":1024},"options":{"distances":true}}"#,
        r#"{"clearance2":524288,"reach2":null,"shapes":[[[[-1024,0],[0,-1024],[16384,-1024],[17408,0],[17408,16384],[16384,17408],[0,17408],[-1024,16384]]]]}"#,
    ),
    (
        r#"{"op":"variable_stroke","int":"i32","out":"shapes","paths":[[[0,0,20],[100,0,20]]],"style":{"arc":[536870912,5]},"options":{"distances":true}}"#,
        r#"{"clearance2":84,"reach2":null,"shapes":[[[[-10,0],[-8,-7],[-1,-10],[100,-10],[107,-7],[110,0],[108,7],[101,10],[0,10],[-7,7]]]]}"#,
    ),
    (
        r#"{"op":"variable_stroke","int":"i32","out":"shapes","paths":[[[0,0,20],[100,0,30],[100,100,10]]],"style":{"arc":[536870912,5]},"options":{"distances":true}}"#,
        r#"{"clearance2":21,"reach2":null,"shapes":[[[[-10,-1],[-7,-7],[-1,-10],[99,-15],[110,-12],[115,-2],[115,2],[105,101],[103,104],[99,105],[96,103],[95,101],[86,14],[-1,10],[-8,7]]]]}"#,
    ),
    // none are asked for, and edges have none
    (
        r#"{"op":"stroke","int":"i32","out":"shapes","paths":[[[0,0],[100,0]]],"style":{"width":20},"options":{"distances":false}}"#,
        r#"{"shapes":[[[[0,-10],[100,-10],[100,10],[0,10]]]]}"#,
    ),
    (
        r#"{"op":"outline","int":"i16","out":"edges","paths":[[[0,0]]],"style":{"outer":1,"inner":1},"options":{"distances":1}}"#,
        r#"{"edges":[[]]}"#,
    ),
];

/// Texts that are no request.
pub const DISTANCES_UNREADABLE: &[&str] = &[
    r#"{"op":"stroke","int":"i32","out":"shapes","paths":[],"style":{"width":20},"options":{"distances":1}}"#,
    r#"{"op":"stroke","int":"i32","out":"shapes","paths":[],"style":{"width":20},"options":{"distances":null}}"#,
];
