// Walks: a workspace in memory of its own, the calls on it that questions make, and their answers.
use anyhow::anyhow;
use graph::Graph;
use law::{Answer, Call, Said};
use marks::WordMarks;
use runs::perform;
use std::alloc::Global;
use std::{fmt, io};
use workspace::{Workspace, entries};

#[derive(Drop)]
pub struct Walk {
    workspace: Workspace,
    stack: Vec<u32>,
    table: Vec<u32>,
    words: Vec<u64>,
}

impl Walk {
    // A workspace for a graph, no walk open; its stack and table are no larger than they have to be.
    pub fn new<G: Graph>(heap: Global, graph: &G) -> anyhow::Result<Walk> {
        let nodes = graph.node_bound();
        let (room, cells) = entries(graph);
        let mut workspace = Workspace::new();
        let stack = vec![in heap; 0; room]?;
        let table = vec![in heap; 0; cells]?;
        let mut words = vec![in heap; 0; (nodes / 64) as usize + 1]?;
        let mut marks = WordMarks::new(words.as_mut_slice(), nodes);
        workspace
            .empty(graph, stack.as_slice(), table.as_slice(), &mut marks)
            .map_err(|_| anyhow!("memory of the right sizes is refused"))?;
        Ok(Walk {
            workspace,
            stack,
            table,
            words,
        })
    }

    // A call, with no result memory.
    fn call<G: Graph>(&mut self, graph: &G, call: Call) -> Answer {
        let stack = self.stack.as_mut_slice();
        let table = self.table.as_mut_slice();
        let mut marks = WordMarks::new(self.words.as_mut_slice(), graph.node_bound());
        let work = &mut self.workspace;
        perform(work, graph, stack, table, &mut marks, call, &mut [])
    }

    // The stack's entries in brackets, the bottom first.
    fn print_stack(&self, rt: &HostRuntime) -> io::Result<()> {
        let depth = self.workspace.depth() as usize;
        print!(rt; " [")?;
        for (i, a) in self.stack.iter().take(depth).enumerate() {
            if i > 0 {
                print!(rt; " ")?;
            }
            print!(rt; "{a}")?;
        }
        print!(rt; "]")
    }
}

// What a granted call says, as the case file has it.
#[derive(Clone, Copy)]
struct SaidText(Said);

impl fmt::Display for SaidText {
    fn fmt<W: fmt::Write>(&self, f: &mut fmt::Formatter<W>) -> fmt::Result {
        match self.0 {
            Said::Done => write!(f, "-"),
            Said::Shown(a) => write!(f, "{a}"),
            Said::End => write!(f, "end"),
            Said::Told(reply) => write!(f, "{reply:?}"),
        }
    }
}

pub fn answer_walk<G: Graph>(
    rt: &HostRuntime,
    graph: &G,
    walk: &mut Walk,
    call: Call,
) -> io::Result<()> {
    match walk.call(graph, call) {
        Ok(said) => {
            let text = SaidText(said);
            print!(rt; " {text}")?;
            walk.print_stack(rt)
        }
        Err(refusal) => print!(rt; " {refusal}"),
    }
}

// All that a new walk shows.
pub fn answer_dfs<G: Graph>(rt: &HostRuntime, graph: &G, start: u32) -> anyhow::Result<()> {
    let mut walk = Walk::new(rt.alloc(), graph)?;
    if let Err(refusal) = walk.call(graph, Call::MoveTo(start)) {
        print!(rt; " {refusal}")?;
        return Ok(());
    }
    for _ in 0..=graph.node_bound() {
        match walk.call(graph, Call::Next) {
            Ok(Said::Shown(a)) => print!(rt; " {a}")?,
            Ok(_) => break,
            Err(refusal) => {
                print!(rt; " {refusal}")?;
                break;
            }
        }
    }
    Ok(())
}
