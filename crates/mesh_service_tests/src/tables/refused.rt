//! Requests whose coordinates or areas are out of range.

/// A request that is refused.
pub const REFUSED: &[&str] = &[
    // a point that leaves the safe range by its offset, or an area past the wide type
    r#"{"op":"outline","int":"i32","out":"edges","paths":[[[1073740800,0]]],"style":{"outer":1024,"inner":1024}}"#,
    r#"{"op":"outline","int":"i32","out":"edges","paths":[[[-1073741823,-1073741823],[1073741823,-1073741823],[1073741823,1073741823],[-1073741823,1073741823],[-1073741823,-1073741823],[1073741823,-1073741823],[1073741823,1073741823],[-1073741823,1073741823]]],"style":{"outer":0,"inner":0}}"#,
    r#"{"op":"outline","int":"i32","out":"edges","paths":[[[0,0]]],"style":{"outer":1,"inner":-2147483648,"join":"bevel","side":7}}"#,
    // one such path is enough, wherever it stands
    r#"{"op":"outline","int":"i32","out":"edges","paths":[[[0,0]],[[1073740800,0]]],"style":{"outer":1024,"inner":1024}}"#,
    r#"{"op":"outline","int":"i32","out":"edges","paths":[[[0,0],[0,-1073740800]],[]],"style":{"outer":1024,"inner":1024}}"#,
    r#"{"op":"outline","int":"i32","out":"edges","paths":[[[0,0]],[[-1073741823,-1073741823],[1073741823,-1073741823],[1073741823,1073741823],[-1073741823,1073741823],[-1073741823,-1073741823],[1073741823,-1073741823],[1073741823,1073741823],[-1073741823,1073741823]],[[0,0]]],"style":{"outer":0,"inner":0}}"#,
    // coordinates of 16 bits
    r#"{"op":"outline","int":"i16","out":"edges","paths":[[[15360,0]]],"style":{"outer":1024,"inner":1024}}"#,
    r#"{"op":"outline","int":"i16","out":"edges","paths":[[[0,-15360]]],"style":{"outer":0,"inner":-1024}}"#,
    r#"{"op":"outline","int":"i16","out":"edges","paths":[[[32767,0]]],"style":{"outer":0,"inner":0}}"#,
    r#"{"op":"outline","int":"i16","out":"edges","paths":[[[0,-32768]]],"style":{"outer":0,"inner":0}}"#,
    r#"{"op":"outline","int":"i16","out":"edges","paths":[[[0,0]]],"style":{"outer":-32768,"inner":0}}"#,
    r#"{"op":"outline","int":"i16","out":"edges","paths":[[[0,0]]],"style":{"outer":0,"inner":-32768}}"#,
    r#"{"op":"outline","int":"i16","out":"edges","paths":[[[-16383,-16383],[16383,-16383],[16383,16383],[-16383,16383],[-16383,-16383],[16383,-16383],[16383,16383],[-16383,16383]]],"style":{"outer":0,"inner":0}}"#,
    // shapes
    r#"{"op":"outline","int":"i16","out":"shapes","paths":[[[15360,0]]],"style":{"outer":1024,"inner":1024}}"#,
    r#"{"op":"outline","int":"i32","out":"shapes","paths":[[[0,0]],[[0,1073740800]]],"style":{"outer":1024,"inner":1024}}"#,
    r#"{"op":"outline","int":"i16","out":"shapes","paths":[[[-16383,-16383],[16383,-16383],[16383,16383],[-16383,16383],[-16383,-16383],[16383,-16383],[16383,16383],[-16383,16383]]],"style":{"outer":0,"inner":0}}"#,
    // paddings of miters
    r#"{"op":"outline","int":"i32","out":"edges","paths":[[[1073739146,0]]],"style":{"outer":1024,"inner":1024,"join":{"miter":536870912}}}"#,
    r#"{"op":"outline","int":"i32","out":"edges","paths":[[[1073740714,0]]],"style":{"outer":1024,"inner":1024,"join":{"miter":1610612736}}}"#,
    r#"{"op":"outline","int":"i32","out":"edges","paths":[[[1073741819,0]]],"style":{"outer":1,"inner":1,"join":{"miter":536870912}}}"#,
    r#"{"op":"outline","int":"i16","out":"edges","paths":[[[0,0]]],"style":{"outer":-32768,"inner":-32768,"join":{"miter":0}}}"#,
    r#"{"op":"outline","int":"i32","out":"edges","paths":[[[0,0]]],"style":{"outer":-2147483648,"inner":-2147483648,"join":{"miter":0}}}"#,
];
