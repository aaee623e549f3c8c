// A call's answer and its times, a line for each call.
use crate::calls::{Answer, Call};
use crate::desk::Desk;
use anyhow::anyhow;
use graph::Graph;
use std::time::{Duration, Instant};
use support::hash;

// Odd, so that there is one in the middle.
const ROUNDS: usize = 11;

fn ask<G: Graph + Copy>(desk: &mut Desk, graph: &G, call: Call) -> anyhow::Result<Answer> {
    desk.ask(graph, call)
        .map_err(|refusal| anyhow!("{call} is {refusal}"))
}

// How long the call takes, ascending.
fn take_times<G: Graph + Copy>(
    rt: &HostRuntime,
    desk: &mut Desk,
    graph: &G,
    call: Call,
) -> anyhow::Result<Vec<Duration>> {
    let mut times = Vec::new(rt.alloc());
    for _ in 0..ROUNDS {
        let start = Instant::now(rt)?;
        ask(desk, graph, call)?;
        times.push(start.elapsed(rt)?)?;
    }
    times.sort_unstable();
    Ok(times)
}

// Nanoseconds for each node and edge, of the round with a place among the ascending ones.
fn per_item<G: Graph + Copy>(times: &[Duration], place: usize, graph: &G) -> f64 {
    let nanos = times
        .get(place)
        .map_or(0.0, |took| took.as_secs_f64() * 1e9);
    nanos / (f64::from(graph.node_bound()) + f64::from(graph.edge_bound()))
}

// What the call answers, with a hash of what it lists.
pub fn print_answer<G: Graph + Copy>(
    rt: &HostRuntime,
    desk: &mut Desk,
    graph: &G,
    call: Call,
) -> anyhow::Result<()> {
    let answer = ask(desk, graph, call)?;
    let hash = hash(desk.listed(answer.count()));
    println!(rt; " = {answer}, hash {hash:016x}")?;
    Ok(())
}

pub fn print_times<G: Graph + Copy>(
    rt: &HostRuntime,
    desk: &mut Desk,
    graph: &G,
    call: Call,
) -> anyhow::Result<()> {
    let times = take_times(rt, desk, graph, call)?;
    let median = per_item(times.as_slice(), ROUNDS / 2, graph);
    let least = per_item(times.as_slice(), 0, graph);
    print!(rt; " median {median:.2} ns/(N+M) least {least:.2}")?;
    Ok(())
}
