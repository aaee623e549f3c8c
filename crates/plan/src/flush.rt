ghost use Rattle.std.specs.Prelude.{◌≡◌, ℕ, List, length, IfOk, MatchResult};
ghost use Rattle.model.specs.Sets.{nothing, in_bits};
ghost use Rattle.workspace.specs.Refusals.{sizes};
ghost use Rattle.image.specs.Means.{means, Opened};
ghost use Rattle.plan.specs.Plans.{card, plan_graph, Anew, Answers, stack_after, table_after, result_after, Right};

use crate::fault::PlanFault;
use filter::Bits;
use graph::Graph;
use image::{Image, open};
use marks::VisitMap;
use order::{Cycle, toposort};
use views::{NodeFiltered, Reversed};
use workspace::{Refusal, Workspace, check_empty, check_result};

// The order of a graph in a workspace of its own. Every test comes before the first write. Lent memory comes in the parts
// that the calls of a workspace take.
fn order_anew<G: Graph, M: VisitMap>(
    graph: &G,
    stack: &mut [u32],
    table: &mut [u32],
    marks: &mut M,
    res: &mut [u32],
) -> Result<Result<u32, Cycle<u32>>, Refusal>
    ensures anew { Anew (G.Graph.model graph.now) (sizes (length stack.old) (length table.old) (M.VisitMap.limit marks.old)) result stack.old table.old res.old stack.new table.new res.new }
    ensures marks { MatchResult result (λ _. M.VisitMap.marked marks.new ≡ nothing) (λ _. marks.new ≡ marks.old) }
    ensures limit { M.VisitMap.limit marks.new ≡ M.VisitMap.limit marks.old }
{
    check_empty(graph, stack, table, marks)?;
    check_result(res, graph.node_bound())?;
    let mut work = Workspace::new();
    work.empty(graph, stack, table, marks)?;
    toposort(&mut work, graph, stack, table, marks, res)
}

// The order of the changed blocks of an opened card: a link is read as its tail needing its head first.
fn order_changed<'a, M: VisitMap>(
    image: Image<'a>,
    changed: &'a [u8],
    stack: &mut [u32],
    table: &mut [u32],
    marks: &mut M,
    res: &mut [u32],
) -> Result<Result<u32, Cycle<u32>>, Refusal>
    ensures anew { Anew (plan_graph (in_bits 8 changed.now) (means image.entry)) (sizes (length stack.old) (length table.old) (M.VisitMap.limit marks.old)) result stack.old table.old res.old stack.new table.new res.new }
    ensures marks { MatchResult result (λ _. M.VisitMap.marked marks.new ≡ nothing) (λ _. marks.new ≡ marks.old) }
    ensures limit { M.VisitMap.limit marks.new ≡ M.VisitMap.limit marks.old }
{
    let pile = Reversed(NodeFiltered(image, Bits(changed)));
    order_anew(&pile, stack, table, marks, res)
}

// The plan of an opened card, from whatever bytes it was opened.
fn plan_opened<'a, M: VisitMap>(
    image: Image<'a>,
    changed: &'a [u8],
    stack: &mut [u32],
    table: &mut [u32],
    marks: &mut M,
    res: &mut [u32],
) -> Result<Result<u32, Cycle<u32>>, PlanFault>
    ensures answer { (b : List ℕ) → Opened b image.entry → Answers b (in_bits 8 changed.now) (sizes (length stack.old) (length table.old) (M.VisitMap.limit marks.old)) (length res.old) result }
    ensures stack { (b : List ℕ) → Opened b image.entry → stack.new ≡ stack_after b result stack.old }
    ensures table { (b : List ℕ) → Opened b image.entry → table.new ≡ table_after b result table.old }
    ensures res { (b : List ℕ) → Opened b image.entry → res.new ≡ result_after b (in_bits 8 changed.now) result res.old }
    ensures marks { MatchResult result (λ _. M.VisitMap.marked marks.new ≡ nothing) (λ _. marks.new ≡ marks.old) }
    ensures limit { M.VisitMap.limit marks.new ≡ M.VisitMap.limit marks.old }
    ensures right { (b : List ℕ) → Opened b image.entry → IfOk result (λ a. Right (card b) (in_bits 8 changed.now) a res.new) }
{
    Ok(order_changed(image, changed, stack, table, marks, res)?)
}

// The write order of the changed blocks of a card, into result memory, or a block that waits for itself.
// Image and workspace are its own; on each fault everything lent is as it was.
pub fn flush_plan<'a, M: VisitMap>(
    bytes: &'a [u8],
    changed: &'a [u8],
    stack: &mut [u32],
    table: &mut [u32],
    marks: &mut M,
    res: &mut [u32],
) -> Result<Result<u32, Cycle<u32>>, PlanFault>
    ensures answer { Answers bytes.now (in_bits 8 changed.now) (sizes (length stack.old) (length table.old) (M.VisitMap.limit marks.old)) (length res.old) result }
    ensures stack { stack.new ≡ stack_after bytes.now result stack.old }
    ensures table { table.new ≡ table_after bytes.now result table.old }
    ensures res { res.new ≡ result_after bytes.now (in_bits 8 changed.now) result res.old }
    ensures marks { MatchResult result (λ _. M.VisitMap.marked marks.new ≡ nothing) (λ _. marks.new ≡ marks.old) }
    ensures limit { M.VisitMap.limit marks.new ≡ M.VisitMap.limit marks.old }
    ensures right { IfOk result (λ a. Right (card bytes.now) (in_bits 8 changed.now) a res.new) }
{
    let mut image: Image<'a> = Image::<'a>::new();
    open(&mut image, bytes)?;
    plan_opened(image, changed, stack, table, marks, res)
}
