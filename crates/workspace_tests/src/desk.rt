// A workspace with its stack and its table, which are larger than the graphs of the tests ask for.
use graph::Graph;
use law::Call;
use marks::VisitMap;
use runs::perform;
use std::process::Abort;
use std::test::*;
use workspace::{Refusal, Workspace};

#[derive(Drop)]
pub struct Desk {
    pub workspace: Workspace,
    pub stack: [u32; 16],
    pub table: [u32; 16],
}

// All that a call may write, as it stands.
#[derive(PartialEq, Debug, Drop)]
pub struct Standing {
    depth: u32,
    stack: [u32; 16],
    table: [u32; 16],
    marked: [bool; 64],
}

impl Desk {
    // A new record, and memory with junk in it.
    pub fn new() -> Desk {
        Desk {
            workspace: Workspace::new(),
            stack: [77; 16],
            table: [99; 16],
        }
    }

    pub fn empty<G: Graph, M: VisitMap>(
        &mut self,
        graph: &G,
        marks: &mut M,
    ) -> Result<(), Refusal> {
        self.workspace.empty(graph, &self.stack, &self.table, marks)
    }

    pub fn reset<G: Graph, M: VisitMap>(
        &mut self,
        graph: &G,
        marks: &mut M,
    ) -> Result<(), Refusal> {
        self.workspace.reset(graph, &self.stack, &self.table, marks)
    }

    pub fn move_to<G: Graph, M: VisitMap>(
        &mut self,
        graph: &G,
        marks: &M,
        a: u32,
    ) -> Result<(), Refusal> {
        self.workspace
            .move_to(graph, &mut self.stack, &self.table, marks, a)
    }

    pub fn next<G: Graph, M: VisitMap>(
        &mut self,
        graph: &G,
        marks: &mut M,
    ) -> Result<Option<u32>, Refusal> {
        self.workspace
            .next(graph, &mut self.stack, &self.table, marks)
    }

    pub fn standing<M: VisitMap>(&self, marks: &M) -> Standing {
        let mut marked = [false; 64];
        for (k, mark) in (0..64u32).zip(marked.iter_mut()) {
            *mark = marks.is_visited(k);
        }
        Standing {
            depth: self.workspace.depth(),
            stack: self.stack,
            table: self.table,
            marked,
        }
    }

    // `next` shows these nodes, one after the other.
    pub fn shows<G: Graph, M: VisitMap>(
        &mut self,
        rt: &impl Abort,
        graph: &G,
        marks: &mut M,
        nodes: &[u32],
    ) -> Result<(), Fail> {
        for a in nodes {
            assert_eq!(rt; self.next(graph, marks), Ok(Some(*a)));
        }
        Ok(())
    }

    // `next` answers the end, and does so again.
    pub fn ends<G: Graph, M: VisitMap>(
        &mut self,
        rt: &impl Abort,
        graph: &G,
        marks: &mut M,
    ) -> Result<(), Fail> {
        assert_eq!(rt; self.next(graph, marks), Ok(None));
        assert_eq!(rt; self.workspace.depth(), 0);
        assert_eq!(rt; self.next(graph, marks), Ok(None));
        Ok(())
    }

    // Why a call is refused, with no result memory.
    fn refusal<G: Graph, M: VisitMap>(
        &mut self,
        graph: &G,
        marks: &mut M,
        call: Call,
    ) -> Option<Refusal> {
        let work = &mut self.workspace;
        let stack = &mut self.stack;
        let table = &mut self.table;
        perform(work, graph, stack, table, marks, call, &mut []).err()
    }

    // The call is refused, and all stands as it stood.
    pub fn refuses<G: Graph, M: VisitMap>(
        &mut self,
        rt: &impl Abort,
        graph: &G,
        marks: &mut M,
        call: Call,
        refusal: Refusal,
    ) -> Result<(), Fail> {
        let before = self.standing(marks);
        assert_eq!(rt; self.refusal(graph, marks, call), Some(refusal));
        assert_eq!(rt; self.standing(marks), before);
        Ok(())
    }
}
