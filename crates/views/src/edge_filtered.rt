ghost use Rattle.std.specs.Prelude.{◌≡◌};
ghost use Rattle.model.specs.Model.{from, front};
ghost use Rattle.model.specs.Views.{keep, keep_edges};
ghost use Rattle.model.proofs.Views.{edges_lawful};

use filter::Filter;
use graph::{Graph, Row};
use model::{Direction, Kind};

// All nodes, and the edges that the filter keeps.
#[derive(Clone, Copy)]
pub struct EdgeFiltered<G, F>(pub G, pub F);

impl<G: Graph, F: Filter> EdgeFiltered<G, F> {
    // The first entry at or after a place of the row below whose edge the filter keeps. The node filter has the same line for
    // far nodes: a closure in its place would take a clause longer than the line.
    fn first_kept(&self, direction: Direction, a: u32, place: u32) -> Option<(u32, u32, u32)>
        ensures { result ≡ front (from (keep (λ x. F.Filter.members self.now.1 x.1) ((G.Graph.model self.now.0).row direction a)) place) }
    {
        Row::starting_at(&self.0, direction, a, place).find(|(_, e, _)| self.1.contains(*e))
    }
}

impl<G: Graph, F: Filter> Graph for EdgeFiltered<G, F> {
    ghost model = { λ v. keep_edges (F.Filter.members v.1) (G.Graph.model v.0) };

    ghost lawful = { λ v. edges_lawful (F.Filter.members v.1) (G.Graph.model v.0) (G.Graph.lawful v.0) };

    fn kind(&self) -> Kind {
        self.0.kind()
    }

    fn node_bound(&self) -> u32 {
        self.0.node_bound()
    }

    fn edge_bound(&self) -> u32 {
        self.0.edge_bound()
    }

    fn contains_node(&self, a: u32) -> bool {
        self.0.contains_node(a)
    }

    fn edge_endpoints(&self, e: u32) -> Option<(u32, u32)> {
        if !self.1.contains(e) {
            return None;
        }
        self.0.edge_endpoints(e)
    }

    fn row_entry(&self, direction: Direction, a: u32, place: u32) -> Option<(u32, u32, u32)> {
        self.first_kept(direction, a, place)
    }
}
