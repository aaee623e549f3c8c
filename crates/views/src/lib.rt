// Views: a graph looked at reversed, or without some nodes or edges. Each is again a graph, so views pile up to any depth.
// Each view names every question of a graph, also those that it only passes on: a crate may not write an `impl` by a macro.
#![tactic(auto)]

mod edge_filtered;
mod node_filtered;
mod reversed;

pub use edge_filtered::EdgeFiltered;
pub use node_filtered::NodeFiltered;
pub use reversed::Reversed;
