// bench: the calls on two graphs of 65,535 nodes and 262,144 edges, the most that a card has.
//
//   bench          prints what each call answers, which is the same at each run
//   bench time     prints how long each call takes as well
//   bench graphs   prints the graphs, for a program that times other code on them
#![tactic(auto)]

mod calls;
mod desk;
mod graphs;
mod times;

use anyhow::{anyhow, bail};
use calls::Call;
use desk::Desk;
use graph::Graph;
use graphs::Drawn;
use image::{Image, MAX_NODES, open};
use model::Kind;
use rand_core::SeedableRng;
use rand_xoshiro::SplitMix64;
use std::env;
use times::{print_answer, print_times};

// What is to be printed.
#[derive(Clone, Copy)]
enum Task {
    Answers,
    Times,
}

fn print_call<G: Graph + Copy>(
    rt: &HostRuntime,
    task: Task,
    desk: &mut Desk,
    graph: &G,
    call: Call,
) -> anyhow::Result<()> {
    print!(rt; "{call}")?;
    if let Task::Times = task {
        print_times(rt, desk, graph, call)?;
    }
    print_answer(rt, desk, graph, call)
}

// All calls on a graph; the path is sought to a node of another part, so that all of the first part is searched.
fn print_calls(rt: &HostRuntime, task: Task, drawn: &Drawn) -> anyhow::Result<()> {
    let bytes = drawn.pack(rt.alloc())?;
    let mut image = Image::new();
    open(&mut image, bytes.as_slice()).map_err(|fault| anyhow!("the graph's image is {fault}"))?;
    let mut desk = Desk::new(rt.alloc(), &image)?;
    let case = drawn.name();
    println!(rt; "case {case}")?;
    print_call(rt, task, &mut desk, &image, Call::Walk)?;
    let last = desk.listed(MAX_NODES as usize).last().copied();
    print_call(rt, task, &mut desk, &image, Call::Toposort)?;
    if let Kind::TwoWay = drawn.kind {
        print_call(
            rt,
            task,
            &mut desk,
            &image,
            Call::Path(0, last.unwrap_or(0)),
        )?;
        print_call(rt, task, &mut desk, &image, Call::Bridges)?;
        print_call(rt, task, &mut desk, &image, Call::CutNodes)?;
    }
    Ok(())
}

fn run(rt: &HostRuntime) -> anyhow::Result<()> {
    let mut random = SplitMix64::seed_from_u64(1);
    let (dag, pairs) = graphs::draw_both(rt.alloc(), &mut random)?;
    let word = env::args(rt)?.nth(1);
    let task = match word.as_deref() {
        None => Task::Answers,
        Some("time") => Task::Times,
        Some("graphs") => {
            dag.print(rt)?;
            return pairs.print(rt);
        }
        Some(_) => bail!("usage: bench [time|graphs]"),
    };
    print_calls(rt, task, &dag)?;
    print_calls(rt, task, &pairs)
}

fn main(rt: HostRuntime) -> anyhow::Result<()> {
    run(&rt)
}
