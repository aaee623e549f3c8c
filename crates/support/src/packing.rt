// A graph as a card image, tables in the order of the header.
use image::is_due;
use model::{Direction, Kind};
use std::alloc::{AllocError, Global};

// A number of an image.
fn put(bytes: &mut Vec<u8>, value: u32) -> Result<(), AllocError> {
    bytes.extend_from_slice(&value.to_le_bytes())
}

fn put_each(bytes: &mut Vec<u8>, values: &[u32]) -> Result<(), AllocError> {
    for value in values {
        put(bytes, *value)?;
    }
    Ok(())
}

// A count as a number of an image.
fn word(count: usize) -> u32 {
    u32::try_from(count).unwrap_or(u32::MAX)
}

// The nodes among an edge's ends in whose row it is due, each once.
fn due_nodes(kind: Kind, direction: Direction, tail: u32, head: u32) -> [Option<u32>; 2] {
    let at_tail = is_due(kind, direction, tail, head, tail);
    let at_head = tail != head && is_due(kind, direction, tail, head, head);
    [at_tail.then_some(tail), at_head.then_some(head)]
}

// Where each row begins among the entries of all rows, and these: the edges due in a row, ascending.
#[derive(Drop)]
struct Rows {
    starts: Vec<u32>,
    entries: Vec<u32>,
}

// One more entry in the row of a, if a is a node.
fn count(counts: &mut [u32], a: Option<u32>) {
    if let Some(n) = a.and_then(|a| counts.get_mut(a as usize)) {
        *n = n.wrapping_add(1);
    }
}

// How many entries each row has.
fn count_due(
    heap: Global,
    kind: Kind,
    direction: Direction,
    nodes: u32,
    edges: &[(u32, u32)],
) -> Result<Vec<u32>, AllocError> {
    let mut counts = vec![in heap; 0; nodes as usize]?;
    for (tail, head) in edges {
        let [first, second] = due_nodes(kind, direction, *tail, *head);
        count(counts.as_mut_slice(), first);
        count(counts.as_mut_slice(), second);
    }
    Ok(counts)
}

// Turns the lengths of rows into where they end, and tells the last end.
fn add_up(counts: &mut [u32]) -> u32 {
    let mut end: u32 = 0;
    for n in counts {
        end = end.wrapping_add(*n);
        *n = end;
    }
    end
}

impl Rows {
    // An edge in the row of a, before what stands there, if a is a node.
    fn put_before(&mut self, a: Option<u32>, e: u32) {
        let Some(start) = a.and_then(|a| self.starts.get_mut(a as usize)) else {
            return;
        };
        *start = start.wrapping_sub(1);
        if let Some(entry) = self.entries.get_mut(*start as usize) {
            *entry = e;
        }
    }

    // Counted first, then filled from the last edge to the first.
    fn of(
        heap: Global,
        kind: Kind,
        direction: Direction,
        nodes: u32,
        edges: &[(u32, u32)],
    ) -> Result<Rows, AllocError> {
        let mut starts = count_due(heap, kind, direction, nodes, edges)?;
        let total = add_up(starts.as_mut_slice());
        let entries = vec![in heap; 0; total as usize]?;
        let mut rows = Rows { starts, entries };
        for (e, (tail, head)) in edges.iter().enumerate().rev() {
            let [first, second] = due_nodes(kind, direction, *tail, *head);
            rows.put_before(first, word(e));
            rows.put_before(second, word(e));
        }
        Ok(rows)
    }

    // The start table, then the entry table; tells where the latter begins.
    fn put(&self, bytes: &mut Vec<u8>) -> Result<usize, AllocError> {
        put_each(bytes, self.starts.as_slice())?;
        put(bytes, word(self.entries.len()))?;
        let entries = bytes.len();
        put_each(bytes, self.entries.as_slice())?;
        Ok(entries)
    }
}

fn put_ends(bytes: &mut Vec<u8>, edges: &[(u32, u32)]) -> Result<(), AllocError> {
    for (tail, head) in edges {
        put(bytes, *tail)?;
        put(bytes, *head)?;
    }
    Ok(())
}

// What does not fit an image, as an edge with an end that is no node, makes an image that is refused.
pub fn pack(
    heap: Global,
    kind: Kind,
    nodes: u32,
    edges: &[(u32, u32)],
) -> Result<Vec<u8>, AllocError> {
    let mut tables = Vec::new(heap);
    put_ends(&mut tables, edges)?;
    let out_starts = tables.len();
    let out_entries = Rows::of(heap, kind, Direction::Outgoing, nodes, edges)?.put(&mut tables)?;
    let in_starts = tables.len();
    let in_entries = Rows::of(heap, kind, Direction::Incoming, nodes, edges)?.put(&mut tables)?;
    let mut bytes = Vec::new(heap);
    put(&mut bytes, u32::from(kind))?;
    put(&mut bytes, nodes)?;
    put(&mut bytes, word(edges.len()))?;
    for at in [0, out_starts, out_entries, in_starts, in_entries] {
        put(&mut bytes, word(at.saturating_add(32)))?;
    }
    bytes.extend_from_slice(tables.as_slice())?;
    Ok(bytes)
}
