//! Each source of paths once, and both iterators.

use crate::values::{paths, vertices};
use i_overlay_mesh::variable_stroke::resource::IntVariableStrokeSource;
use i_overlay_mesh::variable_stroke::resource_iter::{
    ContourResourceIterator, ShapeResourceIterator,
};
use mesh_join::style::IntStrokeVertex;
use mesh_num::shape::PathSlice;
use mesh_test_support::compared::{expect_equal, expect_that};
use mesh_test_support::rows::broken;
use std::alloc::Global;
use std::fmt::Write;
use std::test::Fail;

/// A path of three vertices, and paths: the same, one without a vertex, and one of a single vertex.
const PATH: &str = "0 0 1, 2 -3 4, 2 -3 -5";

const PATHS: &str = "0 0 1, 2 -3 4, 2 -3 -5; ; 6 7 8";

/// What a source of each gives.
const ONE: &str = "[ 0 0 1 2 -3 4 2 -3 -5 ]";

const ALL: &str = "[ 0 0 1 2 -3 4 2 -3 -5 ][ ][ 6 7 8 ]";

/// Adds the numbers of a path in brackets.
fn push_path(text: &mut String, path: &[IntStrokeVertex<i32>]) -> Result<(), Fail> {
    text.push_str("[ ")?;
    for vertex in path {
        let (point, width) = (vertex.point, vertex.width);
        write!(text, "{} {} {width} ", point.x, point.y)?;
    }
    text.push_str("]")?;
    Ok(())
}

/// The paths of a source from its first to its last.
fn given<S: IntVariableStrokeSource<i32>>(alloc: Global, source: &S) -> Result<String, Fail> {
    let mut text = String::new(alloc);
    for index in 0..source.path_count() {
        push_path(&mut text, source.path_at(index))?;
    }
    Ok(text)
}

/// The source has the paths that the text tells.
fn expect_given<S: IntVariableStrokeSource<i32>>(
    alloc: Global,
    source: &S,
    wanted: &str,
) -> Result<(), Fail> {
    expect_equal(&given(alloc, source)?.as_str(), &wanted, &"a source")
}

/// A list of these vertices, an array of them and a slice are sources of one path.
fn expect_one(alloc: Global, path: &Vec<IntStrokeVertex<i32>>) -> Result<(), Fail> {
    let [a, b, c] = path.as_slice() else {
        return Err(broken(PATH));
    };
    expect_given(alloc, path, ONE)?;
    expect_given(alloc, &[*a, *b, *c], ONE)?;
    expect_given(alloc, &PathSlice::new(path.as_slice()), ONE)
}

/// A list of these paths and a slice of it are sources of each.
fn expect_each(alloc: Global, paths: &Vec<Vec<IntStrokeVertex<i32>>>) -> Result<(), Fail> {
    expect_given(alloc, paths, ALL)?;
    expect_given(alloc, &PathSlice::new(paths.as_slice()), ALL)
}

/// The paths as an array.
fn array(alloc: Global) -> Result<[Vec<IntStrokeVertex<i32>>; 3], Fail> {
    Ok([
        vertices(alloc, PATH)?,
        Vec::new(alloc),
        vertices(alloc, "6 7 8")?,
    ])
}

#[test]
fn sources(rt: HostRuntime) -> Result<(), Fail> {
    expect_one(rt.alloc(), &vertices(rt.alloc(), PATH)?)?;
    expect_each(rt.alloc(), &paths(rt.alloc(), PATHS)?)?;
    expect_given(rt.alloc(), &array(rt.alloc())?, ALL)?;
    let none: [IntStrokeVertex<i32>; 0] = [];
    expect_given(rt.alloc(), &none, "[ ]")
}

/// The iterator over one path gives it, tells how many paths it has, and then has none.
fn push_single(text: &mut String, path: &[IntStrokeVertex<i32>]) -> Result<(), Fail> {
    let mut single = ContourResourceIterator::with_slice(path);
    let told = (single.len(), single.size_hint());
    expect_equal(&told, &(1, (1, Some(1))), &path)?;
    let Some(given) = single.next() else {
        return Err(Fail::new(format_args!("no path for {path:?}")));
    };
    push_path(text, given)?;
    expect_that(single.next().is_none() && single.len() == 0, &path)?;
    let count = ContourResourceIterator::with_slice(path).count();
    expect_equal(&count, &1, &path)
}

/// What the iterators over each of the paths give.
fn one_by_one(alloc: Global, paths: &[Vec<IntStrokeVertex<i32>>]) -> Result<String, Fail> {
    let mut text = String::new(alloc);
    for path in paths {
        push_single(&mut text, path)?;
    }
    Ok(text)
}

/// What the iterator over all paths gives.
fn in_turn(alloc: Global, paths: &[Vec<IntStrokeVertex<i32>>]) -> Result<String, Fail> {
    let mut text = String::new(alloc);
    for path in ShapeResourceIterator::with_slice(paths) {
        push_path(&mut text, path)?;
    }
    Ok(text)
}

/// The iterator over the three paths tells at each step how many are left.
fn expect_told(paths: &[Vec<IntStrokeVertex<i32>>]) -> Result<(), Fail> {
    let mut several = ShapeResourceIterator::with_slice(paths);
    for left in [3, 2, 1] {
        let told = (several.len(), several.size_hint());
        expect_equal(&told, &(left, (left, Some(left))), &left)?;
        expect_that(several.next().is_some(), &left)?;
    }
    expect_that(several.next().is_none() && several.len() == 0, &"the end")
}

/// The iterator over these paths counts so many.
fn expect_count(paths: &[Vec<IntStrokeVertex<i32>>], wanted: usize) -> Result<(), Fail> {
    let count = ShapeResourceIterator::with_slice(paths).count();
    expect_equal(&count, &wanted, &"the paths counted")
}

/// What both iterators give, and how many paths they tell.
#[test]
fn iterators(rt: HostRuntime) -> Result<(), Fail> {
    let all = paths(rt.alloc(), PATHS)?;
    expect_equal(&one_by_one(rt.alloc(), &all)?.as_str(), &ALL, &"one by one")?;
    expect_equal(&in_turn(rt.alloc(), &all)?.as_str(), &ALL, &"in turn")?;
    expect_told(&all)?;
    expect_count(&all, 3)?;
    expect_count(&[], 0)
}
