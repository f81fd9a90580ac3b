//! Directions of vectors that look random, to measure them.

use crate::BenchError;
use mesh_num::num::IntVector;
use mesh_test_support::random::Random;

/// Finds the directions of so many vectors whose components have at most so many bits, of which there are from 1 to 31,
/// and adds up their components.
pub(crate) fn find_directions(rt: &HostRuntime, count: u64, bits: u32) -> Result<(), BenchError> {
    let mut random = Random::new(1);
    let side = 1u32 << bits.clamp(1, 31);
    let mut found = 0u64;
    let mut sum = 0i64;
    for _ in 0..count {
        let x = random.below(side);
        let y = random.below(side);
        if let Some(direction) = IntVector::<i32>::new(
            i64::from(x),
            i64::from(y),
        ).fast_normalize()
        {
            found = found.wrapping_add(1);
            sum = sum.wrapping_add(i64::from(direction.x()));
            sum = sum.wrapping_sub(i64::from(direction.y()));
        }
    }
    println!(rt; "{count} vectors give {found} directions, of sum {sum}")?;
    Ok(())
}
