// large: the write order, paths, bridges and cut nodes of graphs that are as large as a card may be: chains and stars of
// 65,535 nodes, and graphs of 65,535 nodes and 262,144 edges, made in memory. Of each list it prints the length and a check value.
#![tactic(auto)]

use anyhow::anyhow;
use image::{Image, open};
use law::Reply;
use model::Kind;
use std::alloc::{AllocError, Global};
use std::io;
use support::{Question, ask_over_junk, hash, pack};

const NODES: u32 = 65535;

const EDGES: u32 = 262144;

const LAST: u32 = NODES - 1;

const QUESTIONS: [Question; 5] = [
    Question::Order,
    Question::Path(0, LAST),
    Question::Path(LAST, 0),
    Question::Bridges,
    Question::CutNodes,
];

// From each node to the next.
fn chain(heap: Global) -> Result<Vec<(u32, u32)>, AllocError> {
    let mut edges = Vec::new(heap);
    for a in 0..LAST {
        edges.push((a, a + 1))?;
    }
    Ok(edges)
}

// From node 0 to each other.
fn star(heap: Global) -> Result<Vec<(u32, u32)>, AllocError> {
    let mut edges = Vec::new(heap);
    for a in 1..NODES {
        edges.push((0, a))?;
    }
    Ok(edges)
}

// Numbers that look drawn: a linear congruence, of which the upper half is used.
#[derive(Drop)]
struct Draw(u64);

impl Draw {
    fn below(&mut self, bound: u32) -> u32 {
        self.0 = self
            .0
            .wrapping_mul(6364136223846793005)
            .wrapping_add(1442695040888963407);
        let upper = (self.0 >> 32) as u32;
        upper.checked_rem(bound).unwrap_or(0)
    }
}

// The node of a rank: a rearrangement of all nodes.
fn ranked(rank: u32) -> u32 {
    (u64::from(rank) * 40501 % u64::from(NODES)) as u32
}

// Each edge from a lower rank to a higher one.
fn downhill(heap: Global) -> Result<Vec<(u32, u32)>, AllocError> {
    let mut draw = Draw(1);
    let mut edges = Vec::new(heap);
    for _ in 0..EDGES {
        let low = draw.below(LAST);
        let high = LAST.saturating_sub(draw.below(LAST.saturating_sub(low)));
        edges.push((ranked(low), ranked(high)))?;
    }
    Ok(edges)
}

// Between any two nodes.
fn scattered(heap: Global) -> Result<Vec<(u32, u32)>, AllocError> {
    let mut draw = Draw(2);
    let mut edges = Vec::new(heap);
    for _ in 0..EDGES {
        let tail = draw.below(NODES);
        edges.push((tail, draw.below(NODES)))?;
    }
    Ok(edges)
}

fn print_list(rt: &HostRuntime, res: &[u32], count: u32) -> anyhow::Result<()> {
    let list = res
        .get(..count as usize)
        .ok_or(anyhow!("a list longer than its memory"))?;
    let check = hash(list);
    print!(rt; " {count}, check {check}")?;
    Ok(())
}

fn answer(rt: &HostRuntime, image: &Image, question: Question) -> anyhow::Result<()> {
    print!(rt; "  {question:?} =")?;
    let (desk, answer) = ask_over_junk(rt.alloc(), image, question)?;
    let res = desk.res.as_slice();
    match answer {
        Ok(Reply::Ordered(count)) | Ok(Reply::Listed(count)) => print_list(rt, res, count)?,
        Ok(Reply::Cycle(a)) => print!(rt; " cycle {a}")?,
        Ok(Reply::Path(found)) => print!(rt; " {found}")?,
        Err(refusal) => print!(rt; " {refusal}")?,
    }
    println!(rt; "")?;
    Ok(())
}

fn answer_all(
    rt: &HostRuntime,
    name: &str,
    kind: Kind,
    edges: &[(u32, u32)],
) -> anyhow::Result<()> {
    println!(rt; "{name}, {kind}")?;
    let bytes = pack(rt.alloc(), kind, NODES, edges)?;
    let mut image = Image::new();
    if open(&mut image, bytes.as_slice()).is_err() {
        return Err(anyhow!("the graph does not pack into an image"));
    }
    for question in QUESTIONS {
        answer(rt, &image, question)?;
    }
    Ok(())
}

fn run(rt: &HostRuntime) -> anyhow::Result<()> {
    let edges = chain(rt.alloc())?;
    answer_all(rt, "chain", Kind::OneWay, edges.as_slice())?;
    answer_all(rt, "chain", Kind::TwoWay, edges.as_slice())?;
    let edges = star(rt.alloc())?;
    answer_all(rt, "star", Kind::OneWay, edges.as_slice())?;
    answer_all(rt, "star", Kind::TwoWay, edges.as_slice())?;
    let edges = downhill(rt.alloc())?;
    answer_all(rt, "downhill", Kind::OneWay, edges.as_slice())?;
    let edges = scattered(rt.alloc())?;
    answer_all(rt, "scattered", Kind::OneWay, edges.as_slice())?;
    answer_all(rt, "scattered", Kind::TwoWay, edges.as_slice())
}

fn main(rt: HostRuntime) -> anyhow::Result<()> {
    run(&rt)
}
