// The interface of every graph: what it means, the laws that bind the meaning, and the questions.
#![tactic(auto)]

mod row;

ghost use Rattle.std.specs.Prelude.{◌≡◌, ◌≤◌, length};
ghost use Rattle.model.specs.Model.{Model, Lawful, from, front, sum, row_limit, most_edges};
ghost use Rattle.model.specs.declared.Direction.{Direction as Way};

use model::{Direction, Kind};
pub use row::Row;

pub trait Graph {
    // what the graph means
    ghost model: { Self → Model };

    // what each implementation shows, and generic code may use
    ghost lawful: { (g : Self) → Lawful (model g) };

    // One-way or two-way.
    fn kind(&self) -> Kind
        ensures { result ≡ (model self.now).kind };

    // N: every node's number is below it.
    fn node_bound(&self) -> u32
        ensures { result ≡ (model self.now).nodes };

    // M: every edge's number is below it.
    fn edge_bound(&self) -> u32
        ensures { result ≡ (model self.now).edges };

    // Whether the node is present.
    fn contains_node(&self, a: u32) -> bool
        ensures { result ≡ (model self.now).present a };

    // The edge's tail and head, or nothing where there is no such edge.
    fn edge_endpoints(&self, e: u32) -> Option<(u32, u32)>
        ensures { result ≡ (model self.now).ends e };

    // Place, edge and far node of the first entry at or after a place of the node's row,
    // or nothing where the row has no entry there. A tuple and no struct, since who asks takes it apart at once.
    fn row_entry(&self, direction: Direction, a: u32, place: u32) -> Option<(u32, u32, u32)>
        ensures { result ≡ front (from ((model self.now).row direction a) place) };
}

// A graph that is lent. Each question is passed on in a line of its own: no crate may write an `impl` by a macro.
impl<G: Graph> Graph for &G {
    ghost model = { λ g. G.Graph.model g.now };

    ghost lawful = { λ g. G.Graph.lawful g.now };

    fn kind(&self) -> Kind {
        (**self).kind()
    }

    fn node_bound(&self) -> u32 {
        (**self).node_bound()
    }

    fn edge_bound(&self) -> u32 {
        (**self).edge_bound()
    }

    fn contains_node(&self, a: u32) -> bool {
        (**self).contains_node(a)
    }

    fn edge_endpoints(&self, e: u32) -> Option<(u32, u32)> {
        (**self).edge_endpoints(e)
    }

    fn row_entry(&self, direction: Direction, a: u32, place: u32) -> Option<(u32, u32, u32)> {
        (**self).row_entry(direction, a, place)
    }
}

// The most entries for a kind and a number of edges.
fn entries_most(kind: Kind, edges: u32) -> u32
    requires { edges ≤ most_edges }
    ensures { result ≡ row_limit kind edges }
{
    match kind {
        Kind::OneWay => edges,
        Kind::TwoWay => 2 * edges,
    }
}

// The most entries that all rows of a direction hold together: M, two-way 2·M.
pub fn row_limit<G: Graph>(graph: &G) -> u32
    ensures value { result ≡ row_limit (G.Graph.model graph.now).kind (G.Graph.model graph.now).edges }
    ensures bound { (d : Way) → sum (λ a. length ((G.Graph.model graph.now).row d a)) (G.Graph.model graph.now).nodes ≤ result }
{
    entries_most(graph.kind(), graph.edge_bound())
}
