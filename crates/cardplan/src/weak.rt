// The links and blocks of a two-way card whose loss would split a recording.
use crate::failure::Failure;
use crate::flush::print_numbers;
use crate::memory::Memory;
use cuts::{articulation_points, bridges};
use graph::Graph;
use image::Image;
use marks::WordMarks;
use model::Kind;
use std::io;
use workspace::Workspace;

// A link with its blocks.
fn print_link(rt: &HostRuntime, image: &Image, e: u32) -> io::Result<()> {
    match image.edge_endpoints(e) {
        Some((tail, head)) => println!(rt; "  link {e}: blocks {tail} {head}"),
        None => Ok(()),
    }
}

fn print_links(rt: &HostRuntime, image: &Image, list: &[u32], count: u32) -> io::Result<()> {
    for e in list.iter().take(count as usize) {
        print_link(rt, image, *e)?;
    }
    Ok(())
}

fn print_two_way(rt: &HostRuntime, image: &Image, memory: &mut Memory) -> Result<(), Failure> {
    let mut marks = WordMarks::new(memory.words.as_mut_slice(), image.node_bound());
    let stack = memory.stack.as_mut_slice();
    let table = memory.table.as_mut_slice();
    let res = memory.res.as_mut_slice();
    let mut work = Workspace::new();
    work.empty(image, stack, table, &mut marks)?;
    let count = bridges(&mut work, image, stack, table, &mut marks, res)?;
    println!(rt; "weak links: {count}")?;
    print_links(rt, image, res, count)?;
    let count = articulation_points(&mut work, image, stack, table, &mut marks, res)?;
    println!(rt; "weak blocks: {count}")?;
    print_numbers(rt, res, count)?;
    Ok(())
}

// The question is about the whole card, whatever changed.
pub fn print_weak(rt: &HostRuntime, image: &Image, memory: &mut Memory) -> Result<(), Failure> {
    match image.kind() {
        Kind::OneWay => Ok(println!(rt; "weak links and blocks: asked of two-way cards only")?),
        Kind::TwoWay => print_two_way(rt, image, memory),
    }
}
