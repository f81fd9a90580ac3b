//! One comparer for the tests that look at many numbers.

use std::test::Fail;

/// Fails at the first pair of two numbers: what was found and what is wanted.
pub fn expect_pairs(pairs: &[(i128, i128)]) -> Result<(), Fail> {
    for (place, (found, wanted)) in pairs.iter().enumerate() {
        if found != wanted {
            return Err(Fail::new(format_args!("pair {place}: {found} and not {wanted}")));
        }
    }
    Ok(())
}
