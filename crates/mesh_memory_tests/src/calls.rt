//! What is tried of each call: it answers, puts contours into a buffer, or tells how near its answer is, and memory may
//! be refused.
//!
//! The checker takes a test step by step, each with all that is known before it. So a test has few steps: it names the
//! call, and the steps stand here, once for each kind of call.

use crate::near::{expect_near, expect_same_near};
use mesh_below::nearness::{NearShapes, SplitCount};
use mesh_num::shape::buffer::FlatContoursBuffer;
use mesh_test_support::compared::{expect_equal, filled};
use mesh_test_support::marks;
use mesh_test_support::refused::{expect_answer, expect_buffer, expect_same_buffer};
use std::alloc::Global;
use std::fmt::Debug;
use std::test::Fail;

/// A call that answers something.
pub trait Answers<T, E> {
    /// Makes the call.
    fn answer(&self, alloc: Global) -> Result<T, E>;
}

/// A call that puts contours in place of a buffer's.
pub trait Fills<E> {
    /// Makes the call.
    fn fill(&self, alloc: Global, buffer: &mut FlatContoursBuffer<i32>) -> Result<(), E>;
}

/// A call that tells how near its answer is, and counts splits.
pub trait TellsNearness<E> {
    /// Makes the call.
    fn tell(&self, alloc: Global, count: &mut SplitCount) -> Result<NearShapes<i32>, E>;
}

/// What a call answers for which no memory is refused.
fn undisturbed<T, E: Debug + Drop>(answer: Result<T, E>) -> Result<T, Fail> {
    match answer {
        Ok(value) => Ok(value),
        Err(error) => Err(Fail::new(format_args!("{error:?}"))),
    }
}

/// Where memory is refused, the call answers this error, and the next one what it answers undisturbed.
pub fn expect_answered<T: PartialEq + Debug + Drop, E: PartialEq + Debug + Drop, C: Answers<T, E>>(
    alloc: Global,
    call: &C,
    out_of_memory: &E,
) -> Result<(), Fail> {
    let wanted = undisturbed(call.answer(alloc))?;
    marks::begin(alloc)?;
    let first = call.answer(alloc);
    marks::end(alloc)?;
    expect_answer(&first, &wanted, out_of_memory)?;
    let again = undisturbed(call.answer(alloc))?;
    expect_equal(&again, &wanted, &"the next call")
}

/// The same of a buffer, which is as it was where the call answers the error.
pub fn expect_filled<E: PartialEq + Debug + Drop, C: Fills<E>>(
    alloc: Global,
    call: &C,
    out_of_memory: &E,
) -> Result<(), Fail> {
    let (mut buffer, mut wanted) = (filled(alloc)?, FlatContoursBuffer::new(alloc));
    undisturbed(call.fill(alloc, &mut wanted))?;
    marks::begin(alloc)?;
    let first = call.fill(alloc, &mut buffer);
    marks::end(alloc)?;
    expect_buffer(&first, &buffer, &wanted, out_of_memory)?;
    undisturbed(call.fill(alloc, &mut buffer))?;
    expect_same_buffer(&buffer, &wanted)
}

/// The same of a call that counts splits: no more than undisturbed.
pub fn expect_told<E: PartialEq + Debug + Drop, C: TellsNearness<E>>(
    alloc: Global,
    call: &C,
    out_of_memory: &E,
) -> Result<(), Fail> {
    let (mut counted, mut count) = (SplitCount::new(0), SplitCount::new(0));
    let wanted = undisturbed(call.tell(alloc, &mut counted))?;
    marks::begin(alloc)?;
    let first = call.tell(alloc, &mut count);
    marks::end(alloc)?;
    expect_near(&first, count, &wanted, counted.made, out_of_memory)?;
    let again = undisturbed(call.tell(alloc, &mut count))?;
    expect_same_near(&again, &wanted)
}
