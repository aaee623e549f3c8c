// The write order: the finishing order of a depth-first search, latest first, or a node on a cycle.
ghost use Rattle.std.specs.Prelude.{ℕ, ◌≡◌, not, ◌&&◌, ◌+◌, ◌*◌, ◌<◌, ◌≤◌, ◌++◌, length, drop, reverse, None, IfOk, OnErr};
ghost use Rattle.theory.specs.Order.{last_outside, late};
ghost use Rattle.theory.specs.Models.{fars, back_rows_of, write_order, cycle_node};
ghost use Rattle.workspace.specs.Refusals.{sizes, room};
ghost use Rattle.workspace.specs.Calls.{state, Does};
ghost use Rattle.workspace.specs.Questions.{tidied, zeroed, table_left, Fit};
ghost use Rattle.order.specs.Search.{graph_of, seen, Same, Ready, Between, Searched};
ghost use Rattle.order.specs.Questions.{order_answer, ordered, written, toposort};
ghost use Rattle.order.specs.Right.{OrderRight};

use crate::cycle::Cycle;
use crate::search::Search;
use graph::{Graph, Row};
use marks::VisitMap;
use model::Direction;
use workspace::{Refusal, Workspace, check_result, entries};

// The far node of the last entry of a row that is not marked.
fn last_unmarked<G: Graph, M: VisitMap>(
    graph: &G,
    marks: &M,
    direction: Direction,
    a: u32,
) -> Option<u32>
    ensures { result ≡ last_outside (M.VisitMap.marked marks.now) (fars ((G.Graph.model graph.now).row direction a)) None }
{
    Row::new(graph, direction, a)
        .map(|(_, _, far)| far)
        .filter(|far| !marks.is_visited(*far))
        .last()
}

// Writes a list from its last entry to its first.
fn write_backwards(list: &[u32], res: &mut [u32])
    requires { length list.now ≤ length res.old }
    ensures { res.new ≡ reverse list.now ++ drop (length list.now) res.old }
{
    let part = &mut res[..list.len()];
    part.copy_from_slice(list);
    part.reverse();
}

impl<'a, G: Graph, M: VisitMap> Search<'a, G, M> {
    // Whether a node is present and not discovered.
    fn is_new(&self, i: u32) -> bool
        ensures { result ≡ ((graph_of self.now).present i && not (seen self.now i)) }
    {
        self.graph.contains_node(i) && !self.has_seen(i)
    }

    // The search from one more node; nothing is done where it is absent, or discovered before.
    fn search_from(&mut self, i: u32)
        requires inside { i < (graph_of self.old).nodes }
        requires between { Between i self.old }
        ensures between { Between (i + 1) self.new }
        ensures same { Same self.old self.new }
    {
        if self.is_new(i) {
            self.begin(i);
            self.settle();
        }
    }

    // The search from every present node, ascending: the finishing order, the first self-loop, and whether an entry led back.
    fn search_all(&mut self)
        requires { Between 0 self.old }
        ensures searched { Searched self.new }
        ensures same { Same self.old self.new }
    {
        for i in 0..self.graph.node_bound() {
            self.search_from(i);
        }
    }

    // The far node of the last entry of a's in row that is not marked.
    fn last_unmarked_before(&self, a: u32) -> Option<u32>
        ensures { result ≡ last_outside (seen self.now) (back_rows_of (graph_of self.now) a) None }
    {
        last_unmarked(self.graph, self.marks, Direction::Incoming, a)
    }

    // Along the order, marking it: the last late far node of the first in row that has one.
    fn find_late(&mut self) -> Option<u32>
        requires { Searched self.old }
        ensures late { result ≡ late (back_rows_of (graph_of self.old)) (seen self.old) (write_order (graph_of self.old)) }
        ensures searched { Searched self.new }
        ensures same { Same self.old self.new }
    {
        // By index: no proof where a slice of the list is lent while the marks change.
        for k in (0..self.count as usize).rev() {
            let i = self.list[k];
            self.marks.visit(i);
            if let Some(far) = self.last_unmarked_before(i) {
                return Some(far);
            }
        }
        None
    }

    // The node that answers for a cycle, after the search: the first self-loop, or else a late node, where an entry led back.
    fn name_cycle(&mut self) -> Option<u32>
        requires { Searched self.old }
        ensures named { result ≡ cycle_node (graph_of self.old) }
        ensures searched { Searched self.new }
        ensures same { Same self.old self.new }
    {
        if self.looped.is_some() || !self.back {
            return self.looped;
        }
        self.marks.clear();
        self.find_late()
    }

    // Writes the order, the latest finished first, and tells how many nodes it has: the memory is the caller's, so the count
    // stands beside it.
    fn write_order(&self, res: &mut [u32]) -> u32
        requires searched { Searched self.now }
        requires long { (graph_of self.now).nodes ≤ length res.old }
        ensures count { result ≡ length (write_order (graph_of self.now)) }
        ensures order { res.new ≡ write_order (graph_of self.now) ++ drop (length (write_order (graph_of self.now))) res.old }
    {
        write_backwards(&self.list[..self.count as usize], res);
        self.count
    }

    // The order into result memory, or a node on a cycle, after the search.
    fn answer(&mut self, res: &mut [u32]) -> Result<u32, Cycle<u32>>
        requires searched { Searched self.old }
        requires long { (graph_of self.old).nodes ≤ length res.old }
        ensures answer { result ≡ order_answer (graph_of self.old) }
        ensures res { res.new ≡ ordered result (write_order (graph_of self.old)) res.old }
        ensures same { Same self.old self.new }
    {
        match self.name_cycle() {
            Some(a) => Err(Cycle(a)),
            None => Ok(self.write_order(res)),
        }
    }
}

// The order into result memory, or a node on a cycle; over memory for the stack and for ranks and list. What it asks of
// them is held by the fields of the search that it makes.
fn order_nodes<G: Graph, M: VisitMap>(
    graph: &G,
    marks: &mut M,
    stack: &mut [u32],
    scratch: &mut [u32],
    res: &mut [u32],
) -> Result<u32, Cycle<u32>>
    requires fits { (G.Graph.model graph.now).nodes ≤ M.VisitMap.limit marks.old }
    requires deep { room (G.Graph.model graph.now).nodes (G.Graph.model graph.now).edges ≤ length stack.old }
    requires wide { 2 * (G.Graph.model graph.now).nodes ≤ length scratch.old }
    requires long { (G.Graph.model graph.now).nodes ≤ length res.old }
    ensures answer { result ≡ order_answer (G.Graph.model graph.now) }
    ensures res { res.new ≡ ordered result (write_order (G.Graph.model graph.now)) res.old }
    ensures right { OrderRight (G.Graph.model graph.now) result res.new }
    ensures limit { M.VisitMap.limit marks.new ≡ M.VisitMap.limit marks.old }
{
    let mut search = Search::new(graph, marks, stack, scratch);
    search.search_all();
    search.answer(res)
}

// The order in a closed workspace that fits the graph, which is left clean. One helper for this and `find_path_clean`
// would take a closure over the lent parts and say what it leaves in each: longer than the three lines both have.
fn order_clean<G: Graph, M: VisitMap>(
    work: &mut Workspace,
    graph: &G,
    stack: &mut [u32],
    table: &mut [u32],
    marks: &mut M,
    res: &mut [u32],
) -> Result<u32, Cycle<u32>>
    requires fit { Fit (G.Graph.model graph.now) (sizes (length stack.old) (length table.old) (M.VisitMap.limit marks.old)) work.old.nodes work.old.edges }
    requires long { (G.Graph.model graph.now).nodes ≤ length res.old }
    ensures answer { result ≡ order_answer (G.Graph.model graph.now) }
    ensures res { res.new ≡ ordered result (write_order (G.Graph.model graph.now)) res.old }
    ensures after { state work.new stack.new (M.VisitMap.marked marks.new) ≡ tidied (state work.old stack.old (M.VisitMap.marked marks.old)) }
    ensures table { table.new ≡ zeroed (4 * (G.Graph.model graph.now).nodes) table.old }
    ensures limit { M.VisitMap.limit marks.new ≡ M.VisitMap.limit marks.old }
    ensures right { OrderRight (G.Graph.model graph.now) result res.new }
{
    let (room, cells) = entries(graph);
    let answer = order_nodes(graph, marks, &mut stack[..room], &mut table[..cells], res);
    work.tidy(stack, table, marks);
    answer
}

// The write order of a graph, into result memory: every present node once, every edge running forward; or a node on a cycle.
// The parts of lent memory stay apart: the calls of a walk take what they do not write by `&`, and one struct would be a
// second way to lend the same memory.
pub fn toposort<G: Graph, M: VisitMap>(
    work: &mut Workspace,
    graph: &G,
    stack: &mut [u32],
    table: &mut [u32],
    marks: &mut M,
    res: &mut [u32],
) -> Result<Result<u32, Cycle<u32>>, Refusal>
    ensures done { let m = G.Graph.model graph.now in let z = sizes (length stack.old) (length table.old) (M.VisitMap.limit marks.old) in let s = state work.old stack.old (M.VisitMap.marked marks.old) in Does (toposort m z (length res.old) s) result (state work.new stack.new (M.VisitMap.marked marks.new)) }
    ensures table { table.new ≡ table_left (G.Graph.model graph.now).nodes result table.old }
    ensures res { res.new ≡ written result (write_order (G.Graph.model graph.now)) res.old }
    ensures limit { M.VisitMap.limit marks.new ≡ M.VisitMap.limit marks.old }
    ensures kept { OnErr result (marks.new ≡ marks.old) }
    ensures right { IfOk result (λ a. OrderRight (G.Graph.model graph.now) a res.new) }
{
    work.check_question(graph, stack, table, marks)?;
    check_result(res, graph.node_bound())?;
    Ok(order_clean(work, graph, stack, table, marks, res))
}
