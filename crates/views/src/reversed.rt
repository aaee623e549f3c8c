ghost use Rattle.model.specs.Views.{reversed};
ghost use Rattle.model.proofs.Views.{reversed_lawful};

use graph::Graph;
use model::{Direction, Kind};

// The graph with its rows and each edge's ends swapped.
#[derive(Clone, Copy)]
pub struct Reversed<G>(pub G);

impl<G: Graph> Graph for Reversed<G> {
    ghost model = { λ v. reversed (G.Graph.model v.0) };

    ghost lawful = { λ v. reversed_lawful (G.Graph.model v.0) (G.Graph.lawful v.0) };

    fn kind(&self) -> Kind {
        self.0.kind()
    }

    fn node_bound(&self) -> u32 {
        self.0.node_bound()
    }

    fn edge_bound(&self) -> u32 {
        self.0.edge_bound()
    }

    fn contains_node(&self, a: u32) -> bool {
        self.0.contains_node(a)
    }

    fn edge_endpoints(&self, e: u32) -> Option<(u32, u32)> {
        self.0.edge_endpoints(e).map(|(tail, head)| (head, tail))
    }

    fn row_entry(&self, direction: Direction, a: u32, place: u32) -> Option<(u32, u32, u32)> {
        self.0.row_entry(direction.opposite(), a, place)
    }
}
