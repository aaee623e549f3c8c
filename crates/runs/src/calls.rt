// Calls as values, and their answers.
ghost use Rattle.std.specs.Prelude.{◌≡◌, length, OnErr};
ghost use Rattle.workspace.specs.Refusals.{sizes};
ghost use Rattle.workspace.specs.Calls.{state};
ghost use Rattle.workspace.specs.Questions.{table_left};
ghost use Rattle.law.specs.Plays.{asked, performed, table_after};

use cuts::{articulation_points, bridges};
use graph::Graph;
use law::{Answer, Call, Question, Reply, Said};
use marks::VisitMap;
use order::{has_path_connecting, toposort};
use workspace::Workspace;

// One question, with result memory: all of it counts, whatever length the question says.
fn ask<G: Graph, M: VisitMap>(
    work: &mut Workspace,
    graph: &G,
    stack: &mut [u32],
    table: &mut [u32],
    marks: &mut M,
    question: Question,
    res: &mut [u32],
) -> Answer
    ensures asked { let m = G.Graph.model graph.now in let z = sizes (length stack.old) (length table.old) (M.VisitMap.limit marks.old) in let p = asked m z (length res.old) (state work.old stack.old (M.VisitMap.marked marks.old)) question in (result ≡ p.answer) × (state work.new stack.new (M.VisitMap.marked marks.new) ≡ p.after) × (res.new ≡ p.result res.old) }
    ensures table { table.new ≡ table_left (G.Graph.model graph.now).nodes result table.old }
    ensures limit { M.VisitMap.limit marks.new ≡ M.VisitMap.limit marks.old }
    ensures kept { OnErr result (marks.new ≡ marks.old) }
{
    let reply = match question {
        Question::Toposort(_) => match toposort(work, graph, stack, table, marks, res)? {
            Ok(count) => Reply::Ordered(count),
            Err(cycle) => Reply::Cycle(cycle.node_id()),
        },
        Question::HasPathConnecting(from, to) => {
            Reply::Path(has_path_connecting(work, graph, stack, table, marks, from, to)?)
        }
        Question::Bridges(_) => Reply::Listed(bridges(work, graph, stack, table, marks, res)?),
        Question::ArticulationPoints(_) => {
            Reply::Listed(articulation_points(work, graph, stack, table, marks, res)?)
        }
    };
    Ok(Said::Told(reply))
}

// One call, with result memory: all of it counts, whatever length a question says. A match, since the law speaks of lists of
// calls as values, and a closure is no value of a list.
pub fn perform<G: Graph, M: VisitMap>(
    work: &mut Workspace,
    graph: &G,
    stack: &mut [u32],
    table: &mut [u32],
    marks: &mut M,
    call: Call,
    res: &mut [u32],
) -> Answer
    ensures performed { let m = G.Graph.model graph.now in let z = sizes (length stack.old) (length table.old) (M.VisitMap.limit marks.old) in let p = performed m z (length res.old) (state work.old stack.old (M.VisitMap.marked marks.old)) call in (result ≡ p.answer) × (state work.new stack.new (M.VisitMap.marked marks.new) ≡ p.after) × (res.new ≡ p.result res.old) }
    ensures table { table.new ≡ table_after (G.Graph.model graph.now).nodes call result table.old }
    ensures limit { M.VisitMap.limit marks.new ≡ M.VisitMap.limit marks.old }
    ensures kept { OnErr result (marks.new ≡ marks.old) }
{
    let said = match call {
        Call::Empty => {
            work.empty(graph, stack, table, marks)?;
            Said::Done
        }
        Call::MoveTo(a) => {
            work.move_to(graph, stack, table, marks, a)?;
            Said::Done
        }
        Call::Next => work
            .next(graph, stack, table, marks)?
            .map_or(Said::End, Said::Shown),
        Call::Reset => {
            work.reset(graph, stack, table, marks)?;
            Said::Done
        }
        Call::Ask(question) => ask(work, graph, stack, table, marks, question, res)?,
    };
    Ok(said)
}
