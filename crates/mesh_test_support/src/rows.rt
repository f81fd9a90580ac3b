//! A reader of tables that are text. Each line is a row, whose fields have bars between them. A field lists items with
//! commas between them, and lists of those with semicolons between. An item is some numbers.

use crate::plain::Point;
use mesh_num::num::IntNumber;
use std::alloc::{AllocError, Global};
use std::test::Fail;

/// Three numbers of an item.
pub type Triple = (i128, i128, i128);

/// The fields of a row.
pub fn fields(alloc: Global, row: &str) -> Result<Vec<&str>, AllocError> {
    let mut fields = Vec::new(alloc);
    for field in row.split('|') {
        fields.push(field.trim())?;
    }
    Ok(fields)
}

/// A row that is not as its table says.
pub fn broken(text: &str) -> Fail {
    Fail::new(format_args!("cannot read {text}"))
}

/// Whether a row is meant for the width `I`.
pub fn is_for<I: IntNumber>(width: &str) -> bool {
    width == "both" || width.parse::<u32>() == Ok(I::BITS)
}

/// The numbers of an item.
pub fn numbers(alloc: Global, item: &str) -> Result<Vec<i128>, Fail> {
    let mut numbers = Vec::new(alloc);
    for word in item.split_whitespace() {
        numbers.push(word.parse::<i128>()?)?;
    }
    Ok(numbers)
}

/// The points of a list.
pub fn points(alloc: Global, list: &str) -> Result<Vec<Point>, Fail> {
    let mut points = Vec::new(alloc);
    for item in list.split(',') {
        match numbers(alloc, item)?.as_slice() {
            [] => {}
            [x, y] => points.push((*x, *y))?,
            _ => return Err(broken(item)),
        }
    }
    Ok(points)
}

/// The triples of a list.
pub fn triples(alloc: Global, list: &str) -> Result<Vec<Triple>, Fail> {
    let mut triples = Vec::new(alloc);
    for item in list.split(',') {
        match numbers(alloc, item)?.as_slice() {
            [] => {}
            [x, y, z] => triples.push((*x, *y, *z))?,
            _ => return Err(broken(item)),
        }
    }
    Ok(triples)
}
