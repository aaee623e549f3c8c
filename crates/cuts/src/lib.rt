// Bridges and cut nodes of a two-way graph: a depth-first search over lent memory with low points.
#![tactic(auto)]

mod answers;
mod found;
mod search;

pub use answers::{articulation_points, bridges};
