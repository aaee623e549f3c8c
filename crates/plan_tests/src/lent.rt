// Memory that is lent to a plan.
use marks::WordMarks;
use order::Cycle;
use plan::{PlanFault, flush_plan};
use std::alloc::{AllocError, Global};
use std::process::Abort;
use std::test::*;

const JUNK: u32 = 77;

#[derive(Drop)]
pub struct Lent {
    stack: Vec<u32>,
    table: Vec<u32>,
    pub words: Vec<u64>,
    pub res: Vec<u32>,
}

// The first n entries are 0, and the rest is junk.
fn is_zeroed(memory: &[u32], n: usize) -> bool {
    let end = n.min(memory.len());
    memory[..end].iter().all(|k| *k == 0) && is_junk(&memory[end..])
}

fn is_junk(memory: &[u32]) -> bool {
    memory.iter().all(|k| *k == JUNK)
}

impl Lent {
    // So many entries of stack, table and result memory, and so many words of marks, with junk in all of them.
    pub fn new(
        heap: Global,
        stack: usize,
        table: usize,
        words: usize,
        res: usize,
    ) -> Result<Lent, AllocError> {
        Ok(Lent {
            stack: vec![in heap; JUNK; stack]?,
            table: vec![in heap; JUNK; table]?,
            words: vec![in heap; u64::MAX; words]?,
            res: vec![in heap; JUNK; res]?,
        })
    }

    pub fn plan(
        &mut self,
        bytes: &[u8],
        changed: &[u8],
        capacity: u32,
    ) -> Result<Result<u32, Cycle<u32>>, PlanFault> {
        let mut marks = WordMarks::new(self.words.as_mut_slice(), capacity);
        flush_plan(
            bytes,
            changed,
            self.stack.as_mut_slice(),
            self.table.as_mut_slice(),
            &mut marks,
            self.res.as_mut_slice(),
        )
    }

    // What a plan leaves: zeroes in what it needs of stack and table, junk past that, and no marks.
    pub fn check_clean(&self, rt: &impl Abort, room: usize, cells: usize) {
        assert!(rt; is_zeroed(self.stack.as_slice(), room));
        assert!(rt; is_zeroed(self.table.as_slice(), cells));
        assert!(rt; self.words.iter().all(|word| *word == 0));
    }

    // Nothing was written.
    pub fn check_kept(&self, rt: &impl Abort) {
        assert!(rt; is_junk(self.stack.as_slice()));
        assert!(rt; is_junk(self.table.as_slice()));
        assert!(rt; is_junk(self.res.as_slice()));
        assert!(rt; self.words.iter().all(|word| *word == u64::MAX));
    }

    // The order stands in result memory, with junk past it; or the block is named, and result memory is as found.
    pub fn check_answer(
        &self,
        rt: &impl Abort,
        said: Result<u32, Cycle<u32>>,
        due: Result<&[u32], u32>,
    ) {
        let list = due.unwrap_or(&[]);
        assert_eq!(rt; said.map_err(|cycle| cycle.node_id()).err(), due.err());
        assert_eq!(rt; said.map_or(0, |count| count as usize), list.len());
        assert!(rt; self.res.as_slice().starts_with(list));
        assert!(rt; self.res.iter().skip(list.len()).all(|k| *k == JUNK));
    }
}
