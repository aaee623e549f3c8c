// A workspace with the memory that its questions need, marks apart.
use cuts::{articulation_points, bridges};
use graph::Graph;
use law::Reply;
use marks::{VisitMap, WordMarks};
use order::{has_path_connecting, toposort};
use std::alloc::{AllocError, Global};
use workspace::{Refusal, Workspace, entries};

// Stands in a desk's memory at first; it could be a node, an edge or a number of a search.
pub const JUNK: u32 = 1;

// A question by its name: how much result memory it needs hangs on the graph.
#[derive(Clone, Copy, PartialEq, Eq, Debug)]
pub enum Question {
    Order,
    Path(u32, u32),
    Bridges,
    CutNodes,
}

impl Question {
    // How many entries of result memory it asks for.
    pub fn results<G: Graph>(self, graph: &G) -> usize {
        match self {
            Question::Order | Question::CutNodes => graph.node_bound() as usize,
            Question::Bridges => graph.edge_bound() as usize,
            Question::Path(..) => 0,
        }
    }
}

#[derive(Drop)]
pub struct Desk {
    pub work: Workspace,
    pub stack: Vec<u32>,
    pub table: Vec<u32>,
    pub res: Vec<u32>,
}

impl Desk {
    // A new record, and memory just large enough for a question, with junk in all of it.
    pub fn new<G: Graph>(heap: Global, graph: &G, question: Question) -> Result<Desk, AllocError> {
        let (room, cells) = entries(graph);
        Ok(Desk {
            work: Workspace::new(),
            stack: vec![in heap; JUNK; room]?,
            table: vec![in heap; JUNK; cells]?,
            res: vec![in heap; JUNK; question.results(graph)]?,
        })
    }

    pub fn empty<G: Graph, M: VisitMap>(
        &mut self,
        graph: &G,
        marks: &mut M,
    ) -> Result<(), Refusal> {
        let stack = self.stack.as_slice();
        self.work.empty(graph, stack, self.table.as_slice(), marks)
    }

    pub fn ask<G: Graph, M: VisitMap>(
        &mut self,
        graph: &G,
        marks: &mut M,
        question: Question,
    ) -> Result<Reply, Refusal> {
        let work = &mut self.work;
        let stack = self.stack.as_mut_slice();
        let table = self.table.as_mut_slice();
        let res = self.res.as_mut_slice();
        match question {
            Question::Order => match toposort(work, graph, stack, table, marks, res)? {
                Ok(count) => Ok(Reply::Ordered(count)),
                Err(cycle) => Ok(Reply::Cycle(cycle.node_id())),
            },
            Question::Path(a, b) => Ok(Reply::Path(has_path_connecting(
                work, graph, stack, table, marks, a, b,
            )?)),
            Question::Bridges => Ok(Reply::Listed(bridges(work, graph, stack, table, marks, res)?)),
            Question::CutNodes => Ok(Reply::Listed(articulation_points(
                work, graph, stack, table, marks, res,
            )?)),
        }
    }
}

// The answer to a question in a new workspace, before which junk stands in all of the memory and every node is marked; and the
// workspace after it.
pub fn ask_over_junk<G: Graph>(
    heap: Global,
    graph: &G,
    question: Question,
) -> Result<(Desk, Result<Reply, Refusal>), AllocError> {
    let nodes = graph.node_bound();
    let mut desk = Desk::new(heap, graph, question)?;
    let mut words = vec![in heap; 0; (nodes / 64) as usize + 1]?;
    let mut marks = WordMarks::new(words.as_mut_slice(), nodes);
    if let Err(refusal) = desk.empty(graph, &mut marks) {
        return Ok((desk, Err(refusal)));
    }
    words.as_mut_slice().fill(u64::MAX);
    let mut marks = WordMarks::new(words.as_mut_slice(), nodes);
    let answer = desk.ask(graph, &mut marks, question);
    Ok((desk, answer))
}
