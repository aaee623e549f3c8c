// What a search leaves, as tests of edges and nodes.
ghost use Rattle.std.specs.Prelude.{◌≡◌, ℕ, ◌≤◌, length, slice_index};
ghost use Rattle.lowpoint.specs.Cuts.{is_bridge, is_cut};
ghost use Rattle.lowpoint.specs.Finds.{entered_by};

use graph::Graph;
use marks::VisitMap;

// A graph that was searched: the entry of a node holds the bridge by which it was entered, and the cut nodes are marked.
#[derive(Drop)]
pub(crate) struct Found<'a, G: Graph, M: VisitMap> {
    pub(crate) graph: &'a G,
    pub(crate) arrivals: &'a [u32],
    pub(crate) marks: &'a M,
    ghost wide: { (G.Graph.model graph.now).nodes ≤ length arrivals.now },
    ghost bridges: { (e : ℕ) → entered_by (λ z. slice_index arrivals.now z) ((G.Graph.model graph.now).ends e) e ≡ is_bridge (G.Graph.model graph.now) e },
    ghost cuts: { (v : ℕ) → M.VisitMap.marked marks.now v ≡ is_cut (G.Graph.model graph.now) v },
}

impl<'a, G: Graph, M: VisitMap> Found<'a, G, M> {
    // Whether an end of the edge was entered by it.
    pub(crate) fn is_bridge(&self, e: u32) -> bool
        ensures { result ≡ is_bridge (G.Graph.model self.now.graph.now) e }
    {
        // No `is_some_and`: its closure would have to ask that both ends are nodes, in a clause longer than this match.
        match self.graph.edge_endpoints(e) {
            Some((tail, head)) => {
                self.arrivals[tail as usize] == e || self.arrivals[head as usize] == e
            }
            None => false,
        }
    }

    // Whether the node is marked.
    pub(crate) fn is_cut_node(&self, v: u32) -> bool
        ensures { result ≡ is_cut (G.Graph.model self.now.graph.now) v }
    {
        self.marks.is_visited(v)
    }
}
