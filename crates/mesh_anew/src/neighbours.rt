//! The edges that met each edge or were close to it.

use mesh_pairs::pairs::Pairs;
use std::alloc::{AllocError, Global};

/// For each edge those that met it or were close to it, one list after the other.
#[derive(Drop)]
pub struct Neighbours {
    /// Where the list of each edge starts.
    starts: Vec<u32>,
    list: Vec<u32>,
}

/// Counts an edge of a pair.
fn count(counts: &mut Vec<u32>, edge: u32) {
    if (edge as usize) < counts.len() {
        counts[edge as usize] = counts[edge as usize].saturating_add(1);
    }
}

/// Makes of how long lists are where each ends.
fn add_up(counts: &mut Vec<u32>) {
    let mut end: u32 = 0;
    for edge in 0..counts.len() {
        end = end.saturating_add(counts[edge]);
        counts[edge] = end;
    }
}

impl Neighbours {
    /// The neighbours of so many edges.
    pub fn new(alloc: Global, edges: usize, pairs: &Pairs) -> Result<Neighbours, AllocError> {
        let mut counts = vec![in alloc; 0u32; edges]?;
        for m in &pairs.meetings {
            count(&mut counts, m.first);
            count(&mut counts, m.second);
        }
        for pair in &pairs.close {
            count(&mut counts, pair.0);
            count(&mut counts, pair.1);
        }
        add_up(&mut counts);
        let many = pairs.meetings.len().saturating_add(pairs.close.len());
        let mut found = Neighbours {
            starts: counts,
            list: vec![in alloc; 0u32; many.saturating_mul(2)]?,
        };
        for m in &pairs.meetings {
            found.put(m.first, m.second);
            found.put(m.second, m.first);
        }
        for pair in &pairs.close {
            found.put(pair.0, pair.1);
            found.put(pair.1, pair.0);
        }
        Ok(found)
    }

    /// Puts a neighbour before those of an edge.
    fn put(&mut self, edge: u32, neighbour: u32) {
        if edge as usize >= self.starts.len() {
            return;
        }
        let place = self.starts[edge as usize].saturating_sub(1);
        self.starts[edge as usize] = place;
        if (place as usize) < self.list.len() {
            self.list[place as usize] = neighbour;
        }
    }

    /// The neighbours of an edge.
    pub fn of(&self, edge: u32) -> &[u32] {
        let place = edge as usize;
        if place >= self.starts.len() {
            return &[];
        }
        let mut end = self.list.len();
        if place + 1 < self.starts.len() {
            end = end.min(self.starts[place + 1] as usize);
        }
        let start = (self.starts[place] as usize).min(end);
        &self.list[start..end]
    }
}
