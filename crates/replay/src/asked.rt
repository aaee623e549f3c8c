// What a graph under a view means, and its questions: a match in each, since a `dyn` made of a generic graph gets no proof.
ghost use Rattle.replay.specs.Viewed.{viewed, viewed_lawful};

use crate::viewed::Viewed;
use graph::Graph;
use model::{Direction, Kind};

impl<'a, G: Graph> Graph for Viewed<'a, G> {
    ghost model = { λ v. viewed G.Graph.model v };

    ghost lawful = { λ v. viewed_lawful G.Graph.model G.Graph.lawful v };

    fn kind(&self) -> Kind {
        match self {
            Viewed::Plain(graph) => graph.kind(),
            Viewed::Reversed(view) => view.kind(),
            Viewed::Nodes(view) => view.kind(),
            Viewed::Edges(view) => view.kind(),
        }
    }

    fn node_bound(&self) -> u32 {
        match self {
            Viewed::Plain(graph) => graph.node_bound(),
            Viewed::Reversed(view) => view.node_bound(),
            Viewed::Nodes(view) => view.node_bound(),
            Viewed::Edges(view) => view.node_bound(),
        }
    }

    fn edge_bound(&self) -> u32 {
        match self {
            Viewed::Plain(graph) => graph.edge_bound(),
            Viewed::Reversed(view) => view.edge_bound(),
            Viewed::Nodes(view) => view.edge_bound(),
            Viewed::Edges(view) => view.edge_bound(),
        }
    }

    fn contains_node(&self, a: u32) -> bool {
        match self {
            Viewed::Plain(graph) => graph.contains_node(a),
            Viewed::Reversed(view) => view.contains_node(a),
            Viewed::Nodes(view) => view.contains_node(a),
            Viewed::Edges(view) => view.contains_node(a),
        }
    }

    fn edge_endpoints(&self, e: u32) -> Option<(u32, u32)> {
        match self {
            Viewed::Plain(graph) => graph.edge_endpoints(e),
            Viewed::Reversed(view) => view.edge_endpoints(e),
            Viewed::Nodes(view) => view.edge_endpoints(e),
            Viewed::Edges(view) => view.edge_endpoints(e),
        }
    }

    fn row_entry(&self, direction: Direction, a: u32, place: u32) -> Option<(u32, u32, u32)> {
        match self {
            Viewed::Plain(graph) => graph.row_entry(direction, a, place),
            Viewed::Reversed(view) => view.row_entry(direction, a, place),
            Viewed::Nodes(view) => view.row_entry(direction, a, place),
            Viewed::Edges(view) => view.row_entry(direction, a, place),
        }
    }
}
