//! What the tests share: points of tables and what is made of them, a reader of tables that are text, comparers of
//! answers, plain programs that count and that tell what is near, points that look random, which the benchmarks take
//! too, and marks round calls for which memory is refused.
#![tactic(auto)]

pub mod compared;
pub mod directions;
pub mod edges;
pub mod joins;
pub mod lists;
pub mod marks;
pub mod nearness;
pub mod plain;
pub mod random;
pub mod refused;
pub mod rows;
