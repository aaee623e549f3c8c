ghost use Rattle.std.specs.Prelude.{◌≡◌};
ghost use Rattle.model.specs.Model.{from, front};
ghost use Rattle.model.specs.Views.{keep, keep_nodes};
ghost use Rattle.model.proofs.Views.{nodes_lawful};

use filter::Filter;
use graph::{Graph, Row};
use model::{Direction, Kind};

// The nodes that the filter keeps, and the edges with both ends kept.
#[derive(Clone, Copy)]
pub struct NodeFiltered<G, F>(pub G, pub F);

impl<G: Graph, F: Filter> NodeFiltered<G, F> {
    // The first entry at or after a place of the row below whose far node the filter keeps. The edge filter has the same line
    // for edges: a closure in its place would take a clause longer than the line.
    fn first_kept(&self, direction: Direction, a: u32, place: u32) -> Option<(u32, u32, u32)>
        ensures { result ≡ front (from (keep (λ x. F.Filter.members self.now.1 x.2) ((G.Graph.model self.now.0).row direction a)) place) }
    {
        Row::starting_at(&self.0, direction, a, place).find(|(_, _, far)| self.1.contains(*far))
    }
}

impl<G: Graph, F: Filter> Graph for NodeFiltered<G, F> {
    ghost model = { λ v. keep_nodes (F.Filter.members v.1) (G.Graph.model v.0) };

    ghost lawful = { λ v. nodes_lawful (F.Filter.members v.1) (G.Graph.model v.0) (G.Graph.lawful v.0) };

    fn kind(&self) -> Kind {
        self.0.kind()
    }

    fn node_bound(&self) -> u32 {
        self.0.node_bound()
    }

    fn edge_bound(&self) -> u32 {
        self.0.edge_bound()
    }

    fn contains_node(&self, a: u32) -> bool {
        self.0.contains_node(a) && self.1.contains(a)
    }

    fn edge_endpoints(&self, e: u32) -> Option<(u32, u32)> {
        self.0
            .edge_endpoints(e)
            .filter(|ends| self.1.contains(ends.0) && self.1.contains(ends.1))
    }

    fn row_entry(&self, direction: Direction, a: u32, place: u32) -> Option<(u32, u32, u32)> {
        if !self.1.contains(a) {
            return None;
        }
        self.first_kept(direction, a, place)
    }
}
