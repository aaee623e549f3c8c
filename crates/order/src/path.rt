// Paths: a search from one node that stops at another.
ghost use Rattle.std.specs.Prelude.{◌≡◌, ◌*◌, ◌≤◌, true, length, IfOk, OnErr};
ghost use Rattle.model.specs.Paths.{Reaches};
ghost use Rattle.theory.specs.Models.{joined};
ghost use Rattle.workspace.specs.Refusals.{sizes, room};
ghost use Rattle.workspace.specs.Calls.{state, Does};
ghost use Rattle.workspace.specs.Questions.{tidied, zeroed, table_left, Fit};
ghost use Rattle.order.specs.Search.{Ready, Sought};
ghost use Rattle.order.specs.Questions.{has_path};
ghost use Rattle.order.specs.Right.{Decides};

use crate::search::Search;
use graph::Graph;
use marks::VisitMap;
use workspace::{Refusal, Workspace, entries};

impl<'a, G: Graph, M: VisitMap> Search<'a, G, M> {
    // Turns until b is discovered or the stack is empty, and tells whether b is discovered. As `settle`, with one more end: a
    // closure for the end would be longer than the loop.
    fn seek(&mut self, b: u32) -> bool
        requires ready { Ready self.old }
        ensures sought { Sought self.old b result self.new }
    {
        while self.depth > 0 && !self.has_seen(b) {
            self.turn();
        }
        self.has_seen(b)
    }
}

// Whether a path leads from a to b; over memory for the stack and for ranks and list. What it asks of them is held by the
// fields of the search that it makes.
fn find_path<G: Graph, M: VisitMap>(
    graph: &G,
    marks: &mut M,
    stack: &mut [u32],
    scratch: &mut [u32],
    a: u32,
    b: u32,
) -> bool
    requires here { (G.Graph.model graph.now).present a ≡ true }
    requires fits { (G.Graph.model graph.now).nodes ≤ M.VisitMap.limit marks.old }
    requires deep { room (G.Graph.model graph.now).nodes (G.Graph.model graph.now).edges ≤ length stack.old }
    requires wide { 2 * (G.Graph.model graph.now).nodes ≤ length scratch.old }
    ensures answer { result ≡ joined (G.Graph.model graph.now) a b }
    ensures right { Decides result (Reaches (G.Graph.model graph.now) a b) }
    ensures limit { M.VisitMap.limit marks.new ≡ M.VisitMap.limit marks.old }
{
    let mut search = Search::new(graph, marks, stack, scratch);
    search.begin(a);
    search.seek(b)
}

// The search for a path in a closed workspace that fits the graph, which is left clean. `order_clean` has the same lines about
// its own search: one function for both would take a closure over the lent parts and say what it leaves in each.
fn find_path_clean<G: Graph, M: VisitMap>(
    work: &mut Workspace,
    graph: &G,
    stack: &mut [u32],
    table: &mut [u32],
    marks: &mut M,
    a: u32,
    b: u32,
) -> bool
    requires fit { Fit (G.Graph.model graph.now) (sizes (length stack.old) (length table.old) (M.VisitMap.limit marks.old)) work.old.nodes work.old.edges }
    requires here { (G.Graph.model graph.now).present a ≡ true }
    ensures answer { result ≡ joined (G.Graph.model graph.now) a b }
    ensures after { state work.new stack.new (M.VisitMap.marked marks.new) ≡ tidied (state work.old stack.old (M.VisitMap.marked marks.old)) }
    ensures table { table.new ≡ zeroed (4 * (G.Graph.model graph.now).nodes) table.old }
    ensures limit { M.VisitMap.limit marks.new ≡ M.VisitMap.limit marks.old }
    ensures right { Decides result (Reaches (G.Graph.model graph.now) a b) }
{
    let (room, cells) = entries(graph);
    let found = find_path(graph, marks, &mut stack[..room], &mut table[..cells], a, b);
    work.tidy(stack, table, marks);
    found
}

// Whether a path leads from one node to another; a node reaches itself. The parts of lent memory stay apart, as in `toposort`.
pub fn has_path_connecting<G: Graph, M: VisitMap>(
    work: &mut Workspace,
    graph: &G,
    stack: &mut [u32],
    table: &mut [u32],
    marks: &mut M,
    from: u32,
    to: u32,
) -> Result<bool, Refusal>
    ensures done { let m = G.Graph.model graph.now in let z = sizes (length stack.old) (length table.old) (M.VisitMap.limit marks.old) in let s = state work.old stack.old (M.VisitMap.marked marks.old) in Does (has_path m z from to s) result (state work.new stack.new (M.VisitMap.marked marks.new)) }
    ensures table { table.new ≡ table_left (G.Graph.model graph.now).nodes result table.old }
    ensures limit { M.VisitMap.limit marks.new ≡ M.VisitMap.limit marks.old }
    ensures kept { OnErr result (marks.new ≡ marks.old) }
    ensures right { IfOk result (λ y. Decides y (Reaches (G.Graph.model graph.now) from to)) }
{
    work.check_question(graph, stack, table, marks)?;
    if !graph.contains_node(from) || !graph.contains_node(to) {
        return Err(Refusal::AbsentNode);
    }
    Ok(find_path_clean(work, graph, stack, table, marks, from, to))
}
