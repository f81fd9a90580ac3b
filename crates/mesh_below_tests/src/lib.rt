//! Tests of the splitting and of the overlay.
#![tactic(auto)]

#[cfg(test)]
mod answers;
#[cfg(test)]
mod calls;
#[cfg(test)]
mod counted;
#[cfg(test)]
mod edges_in_line;
#[cfg(test)]
mod hard_splits;
#[cfg(test)]
mod leashed;
#[cfg(test)]
mod long_rows;
#[cfg(test)]
mod many_edges;
#[cfg(test)]
mod meeting_lists;
#[cfg(test)]
mod nearness;
#[cfg(test)]
mod own_boundaries;
#[cfg(test)]
mod parted_planes;
#[cfg(test)]
mod random_answers;
#[cfg(test)]
mod random_splits;
#[cfg(test)]
mod regions;
#[cfg(test)]
mod splits;
#[cfg(test)]
mod worked_answers;
