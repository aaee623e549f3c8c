// A row as an iterator.
ghost use Rattle.std.specs.Prelude.{◌≡◌, ◌<◌, [], ◌∷◌, length, MatchOption, IfSome};
ghost use Rattle.std.specs.Iterator.{YieldsFirst, item_count};
ghost use Rattle.model.specs.Model.{from};

use crate::Graph;
use model::Direction;
use std::marker::Model;

// The first entry at or after a place of a row, and the place past it.
fn step<G: Graph>(
    graph: &G,
    direction: Direction,
    node: u32,
    place: u32,
) -> Option<((u32, u32, u32), u32)>
    ensures splits { let row = (G.Graph.model graph.now).row direction node in MatchOption result (from row place ≡ []) (λ r. from row place ≡ r.0 ∷ from row r.1) }
    ensures shrinks { let row = (G.Graph.model graph.now).row direction node in IfSome result (λ r. length (from row r.1) < length (from row place)) }
{
    let entry = graph.row_entry(direction, node, place)?;
    Some((entry, entry.0 + 1))
}

// The entries of a row that are still to come, seen as their list.
#[derive(Drop)]
pub struct Row<'a, G: Graph> {
    graph: &'a G,
    direction: Direction,
    node: u32,
    place: u32,
}

impl<'a, G: Graph> Model for Row<'a, G> {
    ghost use Rattle.std.specs.Prelude.{List};
    ghost use Rattle.model.specs.Model.{Entry, from};

    ghost Value = { List Entry };

    ghost view = { λ r. from ((G.Graph.model r.graph.now).row r.direction r.node) r.place };
}

impl<'a, G: Graph> Row<'a, G> {
    // The whole row of a node.
    #[tactic(auto, using(crate::proofs::Rows::whole))]
    pub fn new(graph: &'a G, direction: Direction, node: u32) -> Row<'a, G>
        ensures { result ≡ (G.Graph.model graph.now).row direction node }
    {
        Row::starting_at(graph, direction, node, 0)
    }

    // The entries at or after a place.
    pub fn starting_at(graph: &'a G, direction: Direction, node: u32, place: u32) -> Row<'a, G>
        ensures { result ≡ from ((G.Graph.model graph.now).row direction node) place }
    {
        Row {
            graph,
            direction,
            node,
            place,
        }
    }
}

// Place, edge and far node of each entry, by ascending places.
impl<'a, G: Graph> Iterator for Row<'a, G> {
    type Item = (u32, u32, u32);

    ghost next_gives = { YieldsFirst (λ rest. rest) };

    ghost remaining = { item_count (λ rest. rest) };

    fn next(&mut self) -> Option<(u32, u32, u32)> {
        let (entry, past) = step(self.graph, self.direction, self.node, self.place)?;
        self.place = past;
        Some(entry)
    }
}
