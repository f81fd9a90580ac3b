//! The sizes of what crosses to other languages. Each is the sum of the sizes of its fields, so there is no gap, and a
//! field lies where those before it end.

use crate::boolean::FlatBoolean;
use crate::edges::EdgeCounts;
use crate::nets::FlatNetClearance;
use crate::options::FlatOptions;
use crate::shapes::ShapeCounts;
use crate::styles::{FlatArc, FlatCap, FlatJoin, FlatOutlineStyle, FlatStrokeStyle};
use std::mem::size_of;

const _: () = prove!(size_of::<FlatArc>() == 8);

const _: () = prove!(size_of::<FlatJoin>() == 20);

const _: () = prove!(size_of::<FlatOutlineStyle>() == 28);

const _: () = prove!(size_of::<FlatCap>() == 12);

const _: () = prove!(size_of::<FlatStrokeStyle>() == 56);

const _: () = prove!(size_of::<FlatOptions>() == 16);

const _: () = prove!(size_of::<FlatBoolean>() == 12);

const _: () = prove!(size_of::<ShapeCounts>() == 24);

const _: () = prove!(size_of::<EdgeCounts>() == 16);

const _: () = prove!(size_of::<FlatNetClearance>() == 24);

const _: () = prove!(size_of::<[i32; 2]>() == 8);

const _: () = prove!(size_of::<[i32; 3]>() == 12);

const _: () = prove!(size_of::<[i32; 4]>() == 16);

const _: () = prove!(size_of::<[i16; 2]>() == 4);

const _: () = prove!(size_of::<[i16; 3]>() == 6);

const _: () = prove!(size_of::<[i16; 4]>() == 8);
