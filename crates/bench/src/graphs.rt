// The graphs: random ends, the same at each run.
ghost use Rattle.std.specs.Prelude.{◌<◌};

use image::{MAX_EDGES, MAX_NODES};
use model::Kind;
use rand_core::Rng;
use rand_xoshiro::SplitMix64;
use std::alloc::{AllocError, Global};
use std::io::{self, BufWriter, Write};
use support::pack;

// A kind and the edges.
#[derive(Drop)]
pub struct Drawn {
    pub kind: Kind,
    edges: Vec<(u32, u32)>,
}

fn below(random: &mut SplitMix64, bound: u32) -> u32
    requires { 0 < bound }
    ensures { result < bound }
{
    (random.next_u64() % u64::from(bound)) as u32
}

fn exchange(list: &mut [u32], i: u32, j: u32) {
    let (i, j) = (i as usize, j as usize);
    if i < list.len() && j < list.len() {
        list.swap(i, j);
    }
}

// Each node's rank, in random order.
fn draw_ranks(heap: Global, random: &mut SplitMix64) -> Result<Vec<u32>, AllocError> {
    let mut ranks = Vec::new(heap);
    for a in 0..MAX_NODES {
        ranks.push(a)?;
    }
    for i in (1..MAX_NODES).rev() {
        let j = below(random, i + 1);
        exchange(ranks.as_mut_slice(), i, j);
    }
    Ok(ranks)
}

// Two different nodes.
fn draw_ends(random: &mut SplitMix64) -> (u32, u32) {
    let a = below(random, MAX_NODES);
    let b = (a + 1 + below(random, MAX_NODES - 1)) % MAX_NODES;
    (a, b)
}

// A one-way graph without cycles: every edge leads to the higher rank.
fn draw_dag(heap: Global, random: &mut SplitMix64) -> Result<Drawn, AllocError> {
    let ranks = draw_ranks(heap, random)?;
    let mut edges = Vec::new(heap);
    for _ in 0..MAX_EDGES {
        let (a, b) = draw_ends(random);
        let falls = ranks.get(a as usize) > ranks.get(b as usize);
        edges.push(if falls { (b, a) } else { (a, b) })?;
    }
    Ok(Drawn {
        kind: Kind::OneWay,
        edges,
    })
}

fn draw_pairs(heap: Global, random: &mut SplitMix64) -> Result<Drawn, AllocError> {
    let mut edges = Vec::new(heap);
    for _ in 0..MAX_EDGES {
        edges.push(draw_ends(random))?;
    }
    Ok(Drawn {
        kind: Kind::TwoWay,
        edges,
    })
}

pub fn draw_both(heap: Global, random: &mut SplitMix64) -> Result<(Drawn, Drawn), AllocError> {
    let dag = draw_dag(heap, random)?;
    let pairs = draw_pairs(heap, random)?;
    Ok((dag, pairs))
}

impl Drawn {
    pub fn name(&self) -> &'static str {
        match self.kind {
            Kind::OneWay => "dag",
            Kind::TwoWay => "two-way",
        }
    }

    // The graph as an image.
    pub fn pack(&self, heap: Global) -> Result<Vec<u8>, AllocError> {
        pack(heap, self.kind, MAX_NODES, self.edges.as_slice())
    }

    // The graph as lines.
    pub fn print(&self, rt: &HostRuntime) -> anyhow::Result<()> {
        let mut out = BufWriter::new(rt.alloc(), io::writer(rt))?;
        let case = self.name();
        let kind = match self.kind {
            Kind::OneWay => 'd',
            Kind::TwoWay => 'u',
        };
        writeln!(out, "case {case}\ngraph {kind} {MAX_NODES}")?;
        for (tail, head) in self.edges.iter() {
            writeln!(out, "edge {tail} {head}")?;
        }
        writeln!(out, "end")?;
        out.flush()?;
        Ok(())
    }
}
