//! The order in which edges are cut again.

use crate::groups::Marks;
use mesh_pairs::pairs::Meeting;
use std::alloc::{AllocError, Global};

/// Spreads numbers over 32 bits.
const SPREAD: u32 = 0x9e37_79b9;

/// Where a meeting comes among those that are cut in another order: the first time they are turned about, later mixed.
fn key(k: u32, tries: u32) -> u32 {
    if tries <= 1 {
        return !k;
    }
    k.wrapping_add(tries).wrapping_mul(SPREAD) ^ (k >> (tries % 16))
}

/// The places of all meetings: first those of paths that stay as they are, in their order, then the others, in another one.
pub fn order(alloc: Global, meetings: &[Meeting], marks: &Marks) -> Result<Vec<u32>, AllocError> {
    let mut places = Vec::with_capacity(alloc, meetings.len())?;
    let mut others = Vec::new(alloc);
    for place in 0..u32::MAX {
        if place as usize >= meetings.len() {
            break;
        }
        let m = meetings[place as usize];
        if marks.is_marked(m.first) || marks.is_marked(m.second) {
            let tries = marks.tries(m.first).max(marks.tries(m.second));
            others.push((key(place, tries), place))?;
        } else {
            places.push(place)?;
        }
    }
    others.sort_unstable();
    for other in &others {
        places.push(other.1)?;
    }
    Ok(places)
}
