// Memory from the heap that is lent to the calls over a card.
use graph::Graph;
use std::alloc::{AllocError, Global};
use workspace::entries;

#[derive(Drop)]
pub struct Memory {
    pub stack: Vec<u32>,
    pub table: Vec<u32>,
    pub words: Vec<u64>,
    pub res: Vec<u32>,
}

impl Memory {
    // No larger than a graph asks for, with room for a list of its nodes or of its edges.
    pub fn new<G: Graph>(heap: Global, graph: &G) -> Result<Memory, AllocError> {
        let nodes = graph.node_bound();
        let (room, cells) = entries(graph);
        Ok(Memory {
            stack: vec![in heap; 0; room]?,
            table: vec![in heap; 0; cells]?,
            words: vec![in heap; 0; (nodes / 64) as usize + 1]?,
            res: vec![in heap; 0; nodes.max(graph.edge_bound()) as usize]?,
        })
    }
}
