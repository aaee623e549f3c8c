// The write order and paths: depth-first searches over lent memory.
#![tactic(auto)]

mod cycle;
mod order;
mod path;
mod search;
mod turn;

pub use cycle::Cycle;
pub use order::toposort;
pub use path::has_path_connecting;
