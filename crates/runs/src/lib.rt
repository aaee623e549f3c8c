// Any list of calls on a new workspace, with the law of runs as the contract of one public call.
#![tactic(auto)]

mod calls;

ghost use Rattle.std.specs.Prelude.{◌≡◌, length, take, drop};
ghost use Rattle.workspace.specs.Refusals.{sizes};
ghost use Rattle.workspace.specs.Calls.{new_state};
ghost use Rattle.law.specs.Runs.{lent_all, room_for, turns};
ghost use Rattle.law.specs.Law.{Law};
ghost use Rattle.law.specs.Plays.{after, table_of};

pub use calls::perform;
use graph::Graph;
use law::{Answer, Call};
use marks::VisitMap;
use workspace::Workspace;

// How many calls there is room for: for their answers, and for the result memory that is lent with them.
fn room_for(calls: &[Call], answers: &[Answer], results: &[u32]) -> usize
    ensures { result ≡ room_for calls.now (length answers.now) (length results.now) }
{
    let end = calls.len().min(answers.len());
    let mut left = results.len();
    for i in 0..end {
        let size = calls[i].lent();
        if size > left {
            return i;
        }
        left -= size;
    }
    end
}

// Makes a new workspace over the lent memory, performs the calls in order, each with the next piece of result memory, as far as
// there is room for their answers and pieces, and tells how many. Calls and answers are two slices: the calls are read and the
// answers written, and there is no heap to pair them in.
pub fn run<G: Graph, M: VisitMap>(
    graph: &G,
    stack: &mut [u32],
    table: &mut [u32],
    marks: &mut M,
    calls: &[Call],
    answers: &mut [Answer],
    results: &mut [u32],
) -> usize
    ensures count { result ≡ room_for calls.now (length answers.old) (length results.old) }
    ensures law { Law (G.Graph.model graph.now) (sizes (length stack.old) (length table.old) (M.VisitMap.limit marks.old)) (take result calls.now) (turns (take result calls.now) (take result answers.new) results.old results.new) }
    ensures memory { stack.new ≡ (after (G.Graph.model graph.now) (sizes (length stack.old) (length table.old) (M.VisitMap.limit marks.old)) (new_state stack.old (M.VisitMap.marked marks.old)) (take result calls.now)).stack }
    ensures table { table.new ≡ table_of (G.Graph.model graph.now).nodes (turns (take result calls.now) (take result answers.new) results.old results.new) table.old }
    ensures marks { M.VisitMap.marked marks.new ≡ (after (G.Graph.model graph.now) (sizes (length stack.old) (length table.old) (M.VisitMap.limit marks.old)) (new_state stack.old (M.VisitMap.marked marks.old)) (take result calls.now)).marks }
    ensures limit { M.VisitMap.limit marks.new ≡ M.VisitMap.limit marks.old }
    ensures rest { drop result answers.new ≡ drop result answers.old }
    ensures unlent { drop (lent_all (take result calls.now)) results.new ≡ drop (lent_all (take result calls.now)) results.old }
{
    let count = room_for(calls, answers, results);
    let mut work = Workspace::new();
    let mut at = 0;
    // By index: after a zip with `iter_mut` a proof knows nothing of the answers written.
    for i in 0..count {
        let end = at + calls[i].lent();
        let piece = &mut results[at..end];
        answers[i] = perform(&mut work, graph, stack, table, marks, calls[i], piece);
        at = end;
    }
    count
}
