// The bridges and the cut nodes as lists, over lent memory.
ghost use Rattle.std.specs.Prelude.{◌≡◌, ℕ, ◌+◌, ◌-◌, ◌*◌, ◌^◌, ◌<◌, ◌≤◌, ◌++◌, length, take, drop, IfOk, OnErr};
ghost use Rattle.model.specs.declared.Kind.TheVariants.{TwoWay};
ghost use Rattle.model.specs.Model.{Model, Lawful};
ghost use Rattle.model.specs.Sets.{Set, nothing};
ghost use Rattle.theory.specs.Models.{upto};
ghost use Rattle.lowpoint.specs.Cuts.{Bridge, CutNode, is_bridge, is_cut, bridge_list, cut_list, ListsAll};
ghost use Rattle.lowpoint.proofs.Joins.{cuts_law};
ghost use Rattle.workspace.specs.Refusals.{first_of, sizes};
ghost use Rattle.workspace.specs.Calls.{state, fitting, Does};
ghost use Rattle.workspace.specs.Questions.{ask, tidied, zeroed, table_left, Fit};
ghost use Rattle.cuts.specs.Questions.{cut_tests, bridges, articulation_points, listed};

use crate::found::Found;
use crate::search::search_graph;
use graph::Graph;
use marks::VisitMap;
use model::Kind;
use workspace::{Refusal, Workspace, check_result, entries};

// What a question lists: the numbers below a bound that pass a test after the search; and what these numbers are.
trait Listed {
    ghost wanted: { Model → Set };

    ghost bound: { Model → ℕ };

    ghost meaning: { Model → ℕ → Type 0 };

    ghost right: { (m : Model) → Lawful m → ListsAll (meaning m) (upto (wanted m) (bound m)) };

    fn bound<G: Graph>(graph: &G) -> u32
        ensures { result ≡ bound (G.Graph.model graph.now) };

    fn is_wanted<G: Graph, M: VisitMap>(found: &Found<G, M>, k: u32) -> bool
        ensures { result ≡ wanted (G.Graph.model found.now.graph.now) k };
}

// The edges without which their ends are not joined.
enum BridgeList {}

// The nodes without which two others are not joined.
enum CutNodeList {}

impl Listed for BridgeList {
    ghost wanted = { is_bridge };

    ghost bound = { λ m. m.edges };

    ghost meaning = { Bridge };

    ghost right = { λ m w. (cuts_law m w).bridges };

    fn bound<G: Graph>(graph: &G) -> u32 {
        graph.edge_bound()
    }

    fn is_wanted<G: Graph, M: VisitMap>(found: &Found<G, M>, k: u32) -> bool {
        found.is_bridge(k)
    }
}

impl Listed for CutNodeList {
    ghost wanted = { is_cut };

    ghost bound = { λ m. m.nodes };

    ghost meaning = { CutNode };

    ghost right = { λ m w. (cuts_law m w).cuts };

    fn bound<G: Graph>(graph: &G) -> u32 {
        graph.node_bound()
    }

    fn is_wanted<G: Graph, M: VisitMap>(found: &Found<G, M>, k: u32) -> bool {
        found.is_cut_node(k)
    }
}

// Lists the numbers that are wanted, ascending, and tells how many they are. The list stands in lent memory, so its
// length is counted beside it: an iterator that writes there tells a proof nothing of what it wrote.
fn list<L: Listed, G: Graph, M: VisitMap>(found: &Found<G, M>, res: &mut [u32]) -> u32
    requires long { L.bound (G.Graph.model found.now.graph.now) ≤ length res.old }
    ensures count { let m = G.Graph.model found.now.graph.now in result ≡ length (upto (L.wanted m) (L.bound m)) }
    ensures res { let m = G.Graph.model found.now.graph.now in res.new ≡ upto (L.wanted m) (L.bound m) ++ drop result res.old }
    ensures right { ListsAll (L.meaning (G.Graph.model found.now.graph.now)) (take result res.new) }
{
    let mut count = 0;
    for k in 0..L::bound(found.graph) {
        if L::is_wanted(found, k) {
            res[count as usize] = k;
            count += 1;
        }
    }
    count
}

// The tests of a question beside those of every question.
fn check_list<G: Graph>(graph: &G, needed: u32, res: &[u32]) -> Result<(), Refusal>
    ensures { result ≡ fitting (first_of (cut_tests (G.Graph.model graph.now) needed (length res.now))) }
{
    match graph.kind() {
        Kind::OneWay => Err(Refusal::OneWay),
        Kind::TwoWay => check_result(res, needed),
    }
}

// The search and the list, in a closed workspace that fits the graph, which is left clean. The two questions of `order` frame
// their searches alike: one function for all would take a closure over the lent parts and say what it leaves in each.
fn find_clean<L: Listed, G: Graph, M: VisitMap>(
    work: &mut Workspace,
    graph: &G,
    stack: &mut [u32],
    table: &mut [u32],
    marks: &mut M,
    res: &mut [u32],
) -> u32
    requires fit { Fit (G.Graph.model graph.now) (sizes (length stack.old) (length table.old) (M.VisitMap.limit marks.old)) work.old.nodes work.old.edges }
    requires two { (G.Graph.model graph.now).kind ≡ TwoWay }
    requires long { L.bound (G.Graph.model graph.now) ≤ length res.old }
    ensures count { let m = G.Graph.model graph.now in result ≡ length (upto (L.wanted m) (L.bound m)) }
    ensures res { let m = G.Graph.model graph.now in res.new ≡ upto (L.wanted m) (L.bound m) ++ drop result res.old }
    ensures after { state work.new stack.new (M.VisitMap.marked marks.new) ≡ tidied (state work.old stack.old (M.VisitMap.marked marks.old)) }
    ensures table { table.new ≡ zeroed (4 * (G.Graph.model graph.now).nodes) table.old }
    ensures limit { M.VisitMap.limit marks.new ≡ M.VisitMap.limit marks.old }
    ensures right { ListsAll (L.meaning (G.Graph.model graph.now)) (take result res.new) }
{
    let (room, cells) = entries(graph);
    marks.clear();
    let (arrivals, others) = table[..cells].split_at_mut(graph.node_bound() as usize);
    search_graph(graph, marks, &mut stack[..room], arrivals, others);
    let found = Found {
        graph,
        arrivals,
        marks,
    };
    let count = list::<L, G, M>(&found, res);
    work.tidy(stack, table, marks);
    count
}

// A question: its list into result memory, and how many numbers it has. The parts of lent memory stay apart: the calls
// of a walk take what they do not write by `&`, and one struct would be a second way to lend the same memory.
fn answer<L: Listed, G: Graph, M: VisitMap>(
    work: &mut Workspace,
    graph: &G,
    stack: &mut [u32],
    table: &mut [u32],
    marks: &mut M,
    res: &mut [u32],
) -> Result<u32, Refusal>
    ensures done { let m = G.Graph.model graph.now in let z = sizes (length stack.old) (length table.old) (M.VisitMap.limit marks.old) in let s = state work.old stack.old (M.VisitMap.marked marks.old) in Does (ask m z s (cut_tests m (L.bound m) (length res.old)) (length (upto (L.wanted m) (L.bound m)))) result (state work.new stack.new (M.VisitMap.marked marks.new)) }
    ensures table { table.new ≡ table_left (G.Graph.model graph.now).nodes result table.old }
    ensures res { let m = G.Graph.model graph.now in res.new ≡ listed result (upto (L.wanted m) (L.bound m)) res.old }
    ensures limit { M.VisitMap.limit marks.new ≡ M.VisitMap.limit marks.old }
    ensures kept { OnErr result (marks.new ≡ marks.old) }
    ensures right { IfOk result (λ n. ListsAll (L.meaning (G.Graph.model graph.now)) (take n res.new)) }
{
    work.check_question(graph, stack, table, marks)?;
    check_list(graph, L::bound(graph), res)?;
    Ok(find_clean::<L, G, M>(work, graph, stack, table, marks, res))
}

// The bridges of a two-way graph, ascending, into result memory; tells how many they are.
pub fn bridges<G: Graph, M: VisitMap>(
    work: &mut Workspace,
    graph: &G,
    stack: &mut [u32],
    table: &mut [u32],
    marks: &mut M,
    res: &mut [u32],
) -> Result<u32, Refusal>
    ensures done { let m = G.Graph.model graph.now in let z = sizes (length stack.old) (length table.old) (M.VisitMap.limit marks.old) in let s = state work.old stack.old (M.VisitMap.marked marks.old) in Does (bridges m z (length res.old) s) result (state work.new stack.new (M.VisitMap.marked marks.new)) }
    ensures table { table.new ≡ table_left (G.Graph.model graph.now).nodes result table.old }
    ensures res { res.new ≡ listed result (bridge_list (G.Graph.model graph.now)) res.old }
    ensures limit { M.VisitMap.limit marks.new ≡ M.VisitMap.limit marks.old }
    ensures kept { OnErr result (marks.new ≡ marks.old) }
    ensures right { IfOk result (λ n. ListsAll (Bridge (G.Graph.model graph.now)) (take n res.new)) }
{
    answer::<BridgeList, G, M>(work, graph, stack, table, marks, res)
}

// The cut nodes of a two-way graph, ascending, into result memory; tells how many they are.
pub fn articulation_points<G: Graph, M: VisitMap>(
    work: &mut Workspace,
    graph: &G,
    stack: &mut [u32],
    table: &mut [u32],
    marks: &mut M,
    res: &mut [u32],
) -> Result<u32, Refusal>
    ensures done { let m = G.Graph.model graph.now in let z = sizes (length stack.old) (length table.old) (M.VisitMap.limit marks.old) in let s = state work.old stack.old (M.VisitMap.marked marks.old) in Does (articulation_points m z (length res.old) s) result (state work.new stack.new (M.VisitMap.marked marks.new)) }
    ensures table { table.new ≡ table_left (G.Graph.model graph.now).nodes result table.old }
    ensures res { res.new ≡ listed result (cut_list (G.Graph.model graph.now)) res.old }
    ensures limit { M.VisitMap.limit marks.new ≡ M.VisitMap.limit marks.old }
    ensures kept { OnErr result (marks.new ≡ marks.old) }
    ensures right { IfOk result (λ n. ListsAll (CutNode (G.Graph.model graph.now)) (take n res.new)) }
{
    answer::<CutNodeList, G, M>(work, graph, stack, table, marks, res)
}
