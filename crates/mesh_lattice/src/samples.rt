//! Samples of lists, by which it is chosen how to lay out a search. Nothing is promised of them.

ghost use Rattle.std.specs.Prelude.{◌<◌};

use std::alloc::{AllocError, Global};

/// 2^64 over the golden ratio, whose multiples are spread evenly, and far from each other where they follow each other.
const SCATTERING: usize = 0x9E37_79B9_7F4A_7C15;

/// A number below the bound that looks random, and is the same for the same turn.
fn scattered(turn: usize, bound: usize) -> usize
    requires { 0 < bound }
{
    (turn.wrapping_mul(SCATTERING) >> 32) % bound
}

/// About so many of the elements: of the first few any one, of the next few another one, and so on. Contours often go
/// on in the same few edges, and a sample is to have each kind of them, in whatever number they go on. It fails only
/// where memory is refused.
pub fn sample<T: Copy>(alloc: Global, elements: &[T], wanted: usize) -> Result<Vec<T>, AllocError> {
    let step = (elements.len() / wanted.max(1)).max(1);
    let turns = (elements.len() / step).saturating_add(1);
    let mut found = Vec::with_capacity(alloc, turns)?;
    for turn in 0..turns {
        let place = turn
            .saturating_mul(step)
            .saturating_add(scattered(turn, step));
        if let Some(e) = elements.get(place) {
            found.push(*e)?;
        }
    }
    Ok(found)
}
