// A graph under a view that a case names.
use crate::case::View;
use filter::Bits;
use views::{EdgeFiltered, NodeFiltered, Reversed};

// A graph as it is, or under one view.
#[derive(Clone, Copy)]
pub enum Viewed<'a, G> {
    Plain(G),
    Reversed(Reversed<G>),
    Nodes(NodeFiltered<G, Bits<'a>>),
    Edges(EdgeFiltered<G, Bits<'a>>),
}

impl<'a, G> Viewed<'a, G> {
    pub fn by(graph: G, view: Option<&'a View>) -> Viewed<'a, G> {
        match view {
            None => Viewed::Plain(graph),
            Some(View::Reversed) => Viewed::Reversed(Reversed(graph)),
            Some(View::Nodes(bits)) => Viewed::Nodes(NodeFiltered(graph, Bits(bits.as_slice()))),
            Some(View::Edges(bits)) => Viewed::Edges(EdgeFiltered(graph, Bits(bits.as_slice()))),
        }
    }
}
