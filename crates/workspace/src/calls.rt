// The calls of a workspace. Each is refused, with nothing written, or does exactly what its definition says.
// Stack, table and marks stay three parameters: each call takes what it does not write by `&`, and callers rely on that.
// That the capacity of the marks stays, and that a refusal leaves the marks as they are, are clauses of each call: they compare
// before and after, which no field can hold.
ghost use Rattle.std.specs.Prelude.{◌≡◌, ℕ, ◌+◌, ◌*◌, ◌<◌, ◌≤◌, List, [], ◌∷◌, length, Some, None, IfNone, MatchResult, OnErr};
ghost use Rattle.model.specs.declared.Direction.TheVariants.{Outgoing};
ghost use Rattle.model.specs.Model.{most_nodes, most_edges};
ghost use Rattle.model.specs.Sets.{Set, nothing, add};
ghost use Rattle.workspace.specs.Refusals.{first_of, sizes, room, memory_tests, call_tests, result_test};
ghost use Rattle.workspace.specs.Calls.{state, new_state, fitting, unmarked, write, Does, empty, reset, move_to, next};
ghost use Rattle.workspace.specs.Questions.{zeroed, tidied, question_tests};

use crate::record::Workspace;
use crate::refusal::Refusal;
use crate::sizes::Sizes;
use crate::walk::{push_row, row_len, take_top};
use graph::Graph;
use marks::VisitMap;

// The tests of `empty` for a graph, with nothing written.
pub fn check_empty<G: Graph, M: VisitMap>(
    graph: &G,
    stack: &[u32],
    table: &[u32],
    marks: &M,
) -> Result<(), Refusal>
    ensures { result ≡ fitting (first_of (memory_tests (sizes (length stack.now) (length table.now) (M.VisitMap.limit marks.now)) (G.Graph.model graph.now).nodes (G.Graph.model graph.now).edges)) }
{
    Workspace::of(graph).check_memory(Sizes::of(stack, table, marks))
}

// How many entries of stack and of table memory a graph needs.
pub fn entries<G: Graph>(graph: &G) -> (usize, usize)
    ensures stack { result.0 ≡ room (G.Graph.model graph.now).nodes (G.Graph.model graph.now).edges }
    ensures table { result.1 ≡ 4 * (G.Graph.model graph.now).nodes }
{
    let sized = Workspace::of(graph);
    (sized.room() as usize, sized.cells() as usize)
}

// Whether result memory has as many entries as are needed.
pub fn check_result(res: &[u32], needed: u32) -> Result<(), Refusal>
    ensures { result ≡ fitting (first_of (result_test needed (length res.now) ∷ [])) }
{
    if res.len() < needed as usize {
        return Err(Refusal::ResultShort);
    }
    Ok(())
}

// Zeroes the first n entries, as far as they are there.
pub fn zero_first(memory: &mut [u32], n: usize)
    ensures { memory.new ≡ zeroed n memory.old }
{
    let end = n.min(memory.len());
    memory[..end].fill(0);
}

impl Workspace {
    // A record for no nodes and no edges, no walk open, an empty stack.
    pub fn new() -> Workspace
        ensures { (mem : List ℕ) (s : Set) → state result mem s ≡ new_state mem s }
    {
        Workspace {
            nodes: 0,
            edges: 0,
            walk: None,
        }
    }

    // A record for a graph, no walk open.
    fn of<G: Graph>(graph: &G) -> Workspace
        ensures nodes { result.nodes ≡ (G.Graph.model graph.now).nodes }
        ensures edges { result.edges ≡ (G.Graph.model graph.now).edges }
        ensures walk { result.walk ≡ None }
    {
        Workspace {
            nodes: graph.node_bound(),
            edges: graph.edge_bound(),
            walk: None,
        }
    }

    // How many stack entries the graph needs.
    fn room(&self) -> u32
        ensures { result ≡ room self.now.nodes self.now.edges }
    {
        self.nodes + 2 * self.edges + 1
    }

    // How many table entries the graph needs.
    fn cells(&self) -> u32
        ensures { result ≡ 4 * self.now.nodes }
    {
        4 * self.nodes
    }

    // The tests of lent memory.
    fn check_memory(&self, lent: Sizes) -> Result<(), Refusal>
        ensures { result ≡ fitting (first_of (memory_tests lent self.now.nodes self.now.edges)) }
    {
        if lent.stack < self.room() as usize {
            return Err(Refusal::StackShort);
        }
        if lent.table < self.cells() as usize {
            return Err(Refusal::TableShort);
        }
        if lent.marks < self.nodes {
            return Err(Refusal::MarksShort);
        }
        Ok(())
    }

    // The tests of every call but `empty`.
    fn check_fit<G: Graph>(&self, graph: &G, lent: Sizes) -> Result<(), Refusal>
        ensures { result ≡ fitting (first_of (call_tests lent (G.Graph.model graph.now).nodes (G.Graph.model graph.now).edges self.now.nodes self.now.edges)) }
    {
        if graph.node_bound() != self.nodes || graph.edge_bound() != self.edges {
            return Err(Refusal::OtherGraph);
        }
        self.check_memory(lent)
    }

    // Closes the walk and clears the marks.
    fn close<M: VisitMap>(&mut self, marks: &mut M)
        ensures counts { (self.new.nodes ≡ self.old.nodes) × (self.new.edges ≡ self.old.edges) }
        ensures closed { self.new.walk ≡ None }
        ensures cleared { M.VisitMap.marked marks.new ≡ nothing }
        ensures limit { M.VisitMap.limit marks.new ≡ M.VisitMap.limit marks.old }
    {
        marks.clear();
        self.walk = None;
    }

    // Makes the workspace new for a graph: marks clear, no walk open.
    pub fn empty<G: Graph, M: VisitMap>(
        &mut self,
        graph: &G,
        stack: &[u32],
        table: &[u32],
        marks: &mut M,
    ) -> Result<(), Refusal>
        ensures done { let m = G.Graph.model graph.now in let z = sizes (length stack.now) (length table.now) (M.VisitMap.limit marks.old) in let s = state self.old stack.now (M.VisitMap.marked marks.old) in Does (empty m z s) result (state self.new stack.now (M.VisitMap.marked marks.new)) }
        ensures limit { M.VisitMap.limit marks.new ≡ M.VisitMap.limit marks.old }
        ensures kept { OnErr result (marks.new ≡ marks.old) }
    {
        let record = Workspace::of(graph);
        record.check_memory(Sizes::of(stack, table, marks))?;
        *self = record;
        self.close(marks);
        Ok(())
    }

    // Closes the walk, clears the marks and empties the stack.
    pub fn reset<G: Graph, M: VisitMap>(
        &mut self,
        graph: &G,
        stack: &[u32],
        table: &[u32],
        marks: &mut M,
    ) -> Result<(), Refusal>
        ensures done { let m = G.Graph.model graph.now in let z = sizes (length stack.now) (length table.now) (M.VisitMap.limit marks.old) in let s = state self.old stack.now (M.VisitMap.marked marks.old) in Does (reset m z s) result (state self.new stack.now (M.VisitMap.marked marks.new)) }
        ensures limit { M.VisitMap.limit marks.new ≡ M.VisitMap.limit marks.old }
        ensures kept { OnErr result (marks.new ≡ marks.old) }
    {
        self.check_fit(graph, Sizes::of(stack, table, marks))?;
        self.close(marks);
        Ok(())
    }

    // Opens a walk from a, alone on the stack; the marks stay.
    pub fn move_to<G: Graph, M: VisitMap>(
        &mut self,
        graph: &G,
        stack: &mut [u32],
        table: &[u32],
        marks: &M,
        a: u32,
    ) -> Result<(), Refusal>
        ensures { let m = G.Graph.model graph.now in let k = M.VisitMap.marked marks.now in let z = sizes (length stack.old) (length table.now) (M.VisitMap.limit marks.now) in Does (move_to m z a (state self.old stack.old k)) result (state self.new stack.new k) }
    {
        self.check_fit(graph, Sizes::of(stack, table, marks))?;
        if !graph.contains_node(a) {
            return Err(Refusal::AbsentNode);
        }
        stack[0] = a;
        self.walk = Some(1);
        Ok(())
    }

    // The tests of every question: those of every call, and that no walk is open.
    pub fn check_question<G: Graph, M: VisitMap>(
        &self,
        graph: &G,
        stack: &[u32],
        table: &[u32],
        marks: &M,
    ) -> Result<(), Refusal>
        ensures { let m = G.Graph.model graph.now in let z = sizes (length stack.now) (length table.now) (M.VisitMap.limit marks.now) in result ≡ fitting (first_of (question_tests m z (state self.now stack.now (M.VisitMap.marked marks.now)))) }
    {
        self.check_fit(graph, Sizes::of(stack, table, marks))?;
        if self.walk.is_some() {
            return Err(Refusal::WalkOpen);
        }
        Ok(())
    }

    // Closes the workspace, clears the marks, and zeroes the entries that its graph needs, as far as they are there.
    pub fn tidy<M: VisitMap>(&mut self, stack: &mut [u32], table: &mut [u32], marks: &mut M)
        ensures after { state self.new stack.new (M.VisitMap.marked marks.new) ≡ tidied (state self.old stack.old (M.VisitMap.marked marks.old)) }
        ensures table { table.new ≡ zeroed (4 * self.old.nodes) table.old }
        ensures limit { M.VisitMap.limit marks.new ≡ M.VisitMap.limit marks.old }
    {
        zero_first(stack, self.room() as usize);
        zero_first(table, self.cells() as usize);
        self.close(marks);
    }

    // Marks a node below the capacity, and pushes its unmarked far nodes on the entries below it.
    #[tactic(auto, using(crate::proofs::Tops::unmarked_length))]
    fn show<G: Graph, M: VisitMap>(
        &mut self,
        graph: &G,
        stack: &mut [u32],
        marks: &mut M,
        a: u32,
        depth: u32,
    )
        requires { (a < M.VisitMap.limit marks.old) × (depth + length ((G.Graph.model graph.now).row Outgoing a) ≤ length stack.old) × (depth + length ((G.Graph.model graph.now).row Outgoing a) ≤ self.old.nodes + 2 * self.old.edges + 1) }
        ensures marks { M.VisitMap.marked marks.new ≡ add (M.VisitMap.marked marks.old) a }
        ensures memory { stack.new ≡ write stack.old depth (unmarked (M.VisitMap.marked marks.new) ((G.Graph.model graph.now).row Outgoing a)) }
        ensures walk { self.new.walk ≡ Some (depth + length (unmarked (M.VisitMap.marked marks.new) ((G.Graph.model graph.now).row Outgoing a))) }
        ensures nodes { self.new.nodes ≡ self.old.nodes }
        ensures edges { self.new.edges ≡ self.old.edges }
        ensures limit { M.VisitMap.limit marks.new ≡ M.VisitMap.limit marks.old }
    {
        marks.visit(a);
        self.walk = Some(push_row(graph, marks, stack, a, depth));
    }

    // Marks, expands and shows the topmost unmarked node; nothing at the end, or where no walk is open.
    pub fn next<G: Graph, M: VisitMap>(
        &mut self,
        graph: &G,
        stack: &mut [u32],
        table: &[u32],
        marks: &mut M,
    ) -> Result<Option<u32>, Refusal>
        ensures done { let m = G.Graph.model graph.now in let z = sizes (length stack.old) (length table.now) (M.VisitMap.limit marks.old) in let s = state self.old stack.old (M.VisitMap.marked marks.old) in Does (next m z s) result (state self.new stack.new (M.VisitMap.marked marks.new)) }
        ensures limit { M.VisitMap.limit marks.new ≡ M.VisitMap.limit marks.old }
        ensures kept { MatchResult result (λ o. IfNone o (marks.new ≡ marks.old)) (λ _. marks.new ≡ marks.old) }
    {
        self.check_fit(graph, Sizes::of(stack, table, marks))?;
        let Some(depth) = self.walk else {
            return Ok(None);
        };
        let Some((a, below)) = take_top(graph, marks, stack, depth)? else {
            self.walk = Some(0);
            return Ok(None);
        };
        if row_len(graph, a) > self.room() - below {
            return Err(Refusal::StrayEntry);
        }
        self.show(graph, stack, marks, a, below);
        Ok(Some(a))
    }
}
