// The parts of a step: taking the top, counting a row, pushing it.
ghost use Rattle.std.specs.Prelude.{◌≡◌, ◌+◌, ◌-◌, ◌^◌, ◌<◌, ◌≤◌, length, if◌then◌else◌, slice_set};
ghost use Rattle.model.specs.declared.Direction.TheVariants.{Outgoing};
ghost use Rattle.workspace.specs.Calls.{top_of, unmarked, write};

use crate::refusal::Refusal;
use graph::{Graph, Row};
use marks::VisitMap;
use model::Direction;

// The topmost unmarked entry of a stack, and how many lie below it.
pub(crate) fn take_top<G: Graph, M: VisitMap>(
    graph: &G,
    marks: &M,
    stack: &[u32],
    depth: u32,
) -> Result<Option<(u32, u32)>, Refusal>
    requires { depth ≤ length stack.now }
    ensures { result ≡ top_of (G.Graph.model graph.now).present (M.VisitMap.marked marks.now) stack.now depth }
{
    // By number: how many entries lie below is part of the answer.
    for below in (0..depth).rev() {
        let a = stack[below as usize];
        if !graph.contains_node(a) {
            return Err(Refusal::StrayEntry);
        }
        if !marks.is_visited(a) {
            return Ok(Some((a, below)));
        }
    }
    Ok(None)
}

// How many entries the out row of a has.
pub(crate) fn row_len<G: Graph>(graph: &G, a: u32) -> u32
    ensures { result ≡ length ((G.Graph.model graph.now).row Outgoing a) }
{
    Row::new(graph, Direction::Outgoing, a).count() as u32
}

// Writes a node at the end of the stack unless it is marked, and tells where the stack then ends.
fn push_unmarked<M: VisitMap>(marks: &M, stack: &mut [u32], at: u32, far: u32) -> u32
    requires { (at < length stack.old) × (at < 2 ^ 32 - 1) }
    ensures memory { stack.new ≡ (if M.VisitMap.marked marks.now far then stack.old else slice_set stack.old at far) }
    ensures end { result ≡ (if M.VisitMap.marked marks.now far then at else at + 1) }
{
    if marks.is_visited(far) {
        return at;
    }
    stack[at as usize] = far;
    at + 1
}

// Writes the unmarked far nodes of a's row from depth on, in row order, and tells the depth then. The place is counted: an
// iterator that writes lent memory tells a proof nothing of what it wrote.
pub(crate) fn push_row<G: Graph, M: VisitMap>(
    graph: &G,
    marks: &M,
    stack: &mut [u32],
    a: u32,
    depth: u32,
) -> u32
    requires room { depth + length ((G.Graph.model graph.now).row Outgoing a) ≤ length stack.old }
    requires small { depth + length ((G.Graph.model graph.now).row Outgoing a) < 2 ^ 32 }
    ensures memory { stack.new ≡ write stack.old depth (unmarked (M.VisitMap.marked marks.now) ((G.Graph.model graph.now).row Outgoing a)) }
    ensures depth { result ≡ depth + length (unmarked (M.VisitMap.marked marks.now) ((G.Graph.model graph.now).row Outgoing a)) }
{
    let mut at = depth;
    for (_, _, far) in Row::new(graph, Direction::Outgoing, a) {
        at = push_unmarked(marks, stack, at, far);
    }
    at
}
