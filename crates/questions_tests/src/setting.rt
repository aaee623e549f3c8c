// Questions in memory full of junk, and what they leave there.
use graph::Graph;
use image::{Image, ImageFault, open};
use law::Reply;
use marks::{VisitMap, WordMarks};
use samples::FlagMarks;
use std::alloc::{AllocError, Global};
use std::process::Abort;
use std::test::*;
use support::{Desk, JUNK, Question};
use workspace::{Refusal, entries};

// A packed graph, opened.
pub fn card(bytes: &[u8]) -> Result<Image, ImageFault> {
    let mut image = Image::new();
    open(&mut image, bytes)?;
    Ok(image)
}

// All that a question may write, as it stands.
#[derive(PartialEq, Drop)]
struct Standing {
    depth: u32,
    stack: Vec<u32>,
    table: Vec<u32>,
    res: Vec<u32>,
    marked: Vec<bool>,
}

impl Standing {
    fn of<M: VisitMap>(heap: Global, desk: &Desk, marks: &M) -> Result<Standing, AllocError> {
        let mut marked = Vec::new(heap);
        for a in 0..marks.capacity() {
            marked.push(marks.is_visited(a))?;
        }
        Ok(Standing {
            depth: desk.work.depth(),
            stack: desk.stack.clone()?,
            table: desk.table.clone()?,
            res: desk.res.clone()?,
            marked,
        })
    }
}

// The question is refused, and all stands as it stood.
pub fn refuses<G: Graph, M: VisitMap>(
    rt: &impl Abort,
    heap: Global,
    desk: &mut Desk,
    graph: &G,
    marks: &mut M,
    question: Question,
    refusal: Refusal,
) -> Result<(), Fail> {
    let before = Standing::of(heap, desk, marks)?;
    assert_eq!(rt; desk.ask(graph, marks, question), Err(refusal));
    let after = Standing::of(heap, desk, marks)?;
    assert!(rt; after == before);
    Ok(())
}

// Zero in the first entries, and what stood there in the rest.
fn check_zeroed(rt: &impl Abort, memory: &[u32], needed: usize) {
    assert!(rt; memory.iter().take(needed).all(|entry| *entry == 0));
    assert!(rt; memory.iter().skip(needed).all(|entry| *entry == JUNK));
}

// The list, and what stood there in the rest.
fn check_listed(rt: &impl Abort, memory: &[u32], list: &[u32]) {
    assert!(rt; memory.iter().take(list.len()).eq(list.iter()));
    assert!(rt; memory.iter().skip(list.len()).all(|entry| *entry == JUNK));
}

// A question, its answer, and the list that it writes.
pub type Due<'a> = (Question, Reply, &'a [u32]);

// The question is granted, with every node marked before it, and its list is written; the rest is left clean.
pub fn grants<G: Graph, M: VisitMap>(
    rt: &impl Abort,
    desk: &mut Desk,
    graph: &G,
    marks: &mut M,
    due: Due,
) {
    let (question, answer, list) = due;
    for a in 0..marks.capacity() {
        marks.visit(a);
    }
    assert_eq!(rt; desk.ask(graph, marks, question), Ok(answer));
    let (room, cells) = entries(graph);
    check_zeroed(rt, desk.stack.as_slice(), room);
    check_zeroed(rt, desk.table.as_slice(), cells);
    check_listed(rt, desk.res.as_slice(), list);
    assert!(rt; (0..marks.capacity()).all(|a| !marks.is_visited(a)));
    assert_eq!(rt; desk.work.depth(), 0);
}

// A desk for the question, with so many entries more than it needs.
fn desk_with<G: Graph>(
    heap: Global,
    graph: &G,
    question: Question,
    more: usize,
) -> Result<Desk, AllocError> {
    let mut desk = Desk::new(heap, graph, question)?;
    for _ in 0..more {
        desk.stack.push(JUNK)?;
        desk.table.push(JUNK)?;
        desk.res.push(JUNK)?;
    }
    Ok(desk)
}

// The answer in a new workspace, in memory just large enough and in larger memory, twice each time.
fn answers_with<G: Graph, M: VisitMap>(
    rt: &impl Abort,
    heap: Global,
    graph: &G,
    marks: &mut M,
    due: Due,
) -> Result<(), Fail> {
    for more in [0, 3] {
        let mut desk = desk_with(heap, graph, due.0, more)?;
        desk.empty(graph, marks)?;
        grants(rt, &mut desk, graph, marks, due);
        // The walk is closed.
        assert_eq!(rt; desk.ask(graph, marks, due.0), Ok(due.1));
    }
    Ok(())
}

// What is asked of a graph is answered so, with marks of both kinds.
pub fn answers<G: Graph>(
    rt: &impl Abort,
    heap: Global,
    graph: &G,
    dues: &[Due],
) -> Result<(), Fail> {
    let mut words: [u64; 1] = [u64::MAX];
    let mut flags: [u8; 8] = [7; 8];
    for due in dues {
        let mut marks = WordMarks::new(&mut words, 8);
        answers_with(rt, heap, graph, &mut marks, *due)?;
        let mut marks = FlagMarks::new(&mut flags);
        answers_with(rt, heap, graph, &mut marks, *due)?;
    }
    // Bits past the capacity stay, and bytes are cleared.
    assert_eq!(rt; words, [u64::MAX - 255]);
    assert_eq!(rt; flags, [0; 8]);
    Ok(())
}
