//! Marks round a call for which memory is refused.
//!
//! `.ci/refuse_memory` runs each memory test alone, again and again, and refuses it one growth of memory: in the first
//! run the first one between the marks, then the second, and so on; in the last run it refuses all of them. What stands
//! before and after the marks has memory. In other runs the marks do nothing.

use std::alloc::{AllocError, Global};

/// How many bytes the mark takes after which memory may be refused. Nothing else in a test asks for so many.
const BEGIN: usize = 1_000_003;

/// How many bytes the mark takes that ends this.
const END: usize = 1_000_033;

/// Takes so many bytes. They are handed out, so that no compiler leaves the growth away.
#[inline(never)]
fn mark(alloc: Global, size: usize) -> Result<Vec<u8>, AllocError> {
    Vec::with_capacity(alloc, size)
}

/// From here on memory may be refused.
pub fn begin(alloc: Global) -> Result<(), AllocError> {
    mark(alloc, BEGIN)?;
    Ok(())
}

/// From here on it is not.
pub fn end(alloc: Global) -> Result<(), AllocError> {
    mark(alloc, END)?;
    Ok(())
}
