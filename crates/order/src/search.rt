// The memory of a depth-first search.
ghost use Rattle.std.specs.Prelude.{◌≡◌, ◌*◌, ◌≤◌, length};
ghost use Rattle.workspace.specs.Refusals.{room};

use graph::Graph;
use marks::VisitMap;
use workspace::zero_first;

// A graph that is searched, lent memory, and how far the search got: how many entries stand on the stack, how many nodes
// are finished, whether an entry led back to an open node, and the first node found with a self-loop.
// The list has the finished nodes in their order, and a node's rank is its place there from 1 on, or 0 where it is not
// finished. There is no heap: stack, ranks and list are lent plain numbers, with their lengths beside them.
#[derive(Drop)]
pub(crate) struct Search<'a, G: Graph, M: VisitMap> {
    pub(crate) graph: &'a G,
    pub(crate) marks: &'a mut M,
    pub(crate) stack: &'a mut [u32],
    pub(crate) ranks: &'a mut [u32],
    pub(crate) list: &'a mut [u32],
    pub(crate) depth: u32,
    pub(crate) count: u32,
    pub(crate) back: bool,
    pub(crate) looped: Option<u32>,
    ghost deep: { room (G.Graph.model graph.now).nodes (G.Graph.model graph.now).edges ≤ length stack.now },
    ghost fits: { (G.Graph.model graph.now).nodes ≤ M.VisitMap.limit marks.now },
    ghost tall: { (G.Graph.model graph.now).nodes ≤ length ranks.now },
    ghost long: { (G.Graph.model graph.now).nodes ≤ length list.now },
}

impl<'a, G: Graph, M: VisitMap> Search<'a, G, M> {
    ghost use Rattle.order.specs.Search.{Between};

    // A search in which no node is done: nothing is marked, nothing has a rank.
    pub(crate) fn new(
        graph: &'a G,
        marks: &'a mut M,
        stack: &'a mut [u32],
        scratch: &'a mut [u32],
    ) -> Search<'a, G, M>
        requires fits { (G.Graph.model graph.now).nodes ≤ M.VisitMap.limit marks.old }
        requires deep { room (G.Graph.model graph.now).nodes (G.Graph.model graph.now).edges ≤ length stack.old }
        requires wide { 2 * (G.Graph.model graph.now).nodes ≤ length scratch.old }
        ensures begun { Between 0 result }
        ensures graph { result.graph ≡ graph.entry }
        ensures marks { result.marks.ghost_name ≡ marks.entry.ghost_name }
        ensures limit { M.VisitMap.limit result.marks.now ≡ M.VisitMap.limit marks.old }
    {
        let nodes = graph.node_bound() as usize;
        let (ranks, list) = scratch.split_at_mut(nodes);
        zero_first(ranks, nodes);
        marks.clear();
        Search {
            graph,
            marks,
            stack,
            ranks,
            list,
            depth: 0,
            count: 0,
            back: false,
            looped: None,
        }
    }
}
