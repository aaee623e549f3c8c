// A workspace in memory of its own, of just the sizes that a graph needs, and the calls in it.
use crate::calls::{Answer, Call};
use cuts::{articulation_points, bridges};
use graph::Graph;
use marks::WordMarks;
use order::{has_path_connecting, toposort};
use std::alloc::{AllocError, Global};
use workspace::{Refusal, Workspace, entries};

#[derive(Drop)]
pub struct Desk {
    work: Workspace,
    stack: Vec<u32>,
    table: Vec<u32>,
    words: Vec<u64>,
    res: Vec<u32>,
}

// Shows what is left of a walk into result memory from a place on, and tells the place then.
fn show_rest<G: Graph>(
    work: &mut Workspace,
    graph: &G,
    stack: &mut [u32],
    table: &[u32],
    marks: &mut WordMarks,
    res: &mut [u32],
    from: usize,
) -> Result<usize, Refusal> {
    let mut count = from;
    for _ in 0..=graph.node_bound() {
        let Some(a) = work.next(graph, stack, table, marks)? else {
            break;
        };
        if let Some(slot) = res.get_mut(count) {
            *slot = a;
        }
        count = count.saturating_add(1);
    }
    Ok(count)
}

// A walk over everything: from each node in turn to its end, all marks kept.
fn walk<G: Graph>(
    work: &mut Workspace,
    graph: &G,
    stack: &mut [u32],
    table: &[u32],
    marks: &mut WordMarks,
    res: &mut [u32],
) -> Result<usize, Refusal> {
    work.empty(graph, stack, table, marks)?;
    let mut count = 0;
    for a in 0..graph.node_bound() {
        work.move_to(graph, stack, table, marks, a)?;
        count = show_rest(work, graph, stack, table, marks, res, count)?;
    }
    work.reset(graph, stack, table, marks)?;
    Ok(count)
}

impl Desk {
    pub fn new<G: Graph>(heap: Global, graph: &G) -> Result<Desk, AllocError> {
        let (room, cells) = entries(graph);
        let words = (graph.node_bound() / 64) as usize + 1;
        Ok(Desk {
            work: Workspace::new(),
            stack: vec![in heap; 0; room]?,
            table: vec![in heap; 0; cells]?,
            words: vec![in heap; 0; words]?,
            res: vec![in heap; 0; graph.edge_bound() as usize]?,
        })
    }

    // The call, and nothing else: what it lists stands in result memory.
    // The graph is copied into a local, so that it does not count as changed by each write to lent memory; the search for
    // bridges and cut nodes is a function of its own, to which such a local would be lent again.
    pub fn ask<G: Graph + Copy>(&mut self, lent: &G, call: Call) -> Result<Answer, Refusal> {
        let graph = &{ *lent };
        let work = &mut self.work;
        let stack = self.stack.as_mut_slice();
        let table = self.table.as_mut_slice();
        let res = self.res.as_mut_slice();
        let marks = &mut WordMarks::new(self.words.as_mut_slice(), graph.node_bound());
        Ok(match call {
            Call::Walk => Answer::Listed(walk(work, graph, stack, table, marks, res)?),
            Call::Toposort => match toposort(work, graph, stack, table, marks, res)? {
                Ok(count) => Answer::Order(count as usize),
                Err(cycle) => Answer::Cycle(cycle.node_id()),
            },
            Call::Path(from, to) => Answer::Joined(has_path_connecting(
                work, graph, stack, table, marks, from, to,
            )?),
            Call::Bridges => {
                Answer::Listed(bridges(work, lent, stack, table, marks, res)? as usize)
            }
            Call::CutNodes => {
                Answer::Listed(articulation_points(work, lent, stack, table, marks, res)? as usize)
            }
        })
    }

    // The first entries of result memory.
    pub fn listed(&self, count: usize) -> &[u32] {
        self.res.as_slice().get(..count).unwrap_or(&[])
    }
}
