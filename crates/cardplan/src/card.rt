// A card is opened step by step.
use crate::failure::Failure;
use graph::Graph;
use image::{Image, Layout, open, read_header, read_layout};
use std::io;

fn print_table(rt: &HostRuntime, name: &str, at: u32, length: u64) -> io::Result<()> {
    println!(rt; "  {name}: {length} bytes at byte {at}")
}

// Where each table lies and how long it is.
fn print_tables(rt: &HostRuntime, layout: &Layout) -> io::Result<()> {
    let header = layout.header;
    let starts = 4 * (header.nodes as u64 + 1);
    let entries = 4 * (layout.entries as u64);
    println!(rt; "tables:")?;
    print_table(rt, "links", header.ends, 8 * (header.edges as u64))?;
    print_table(rt, "out starts", header.outgoing.starts, starts)?;
    print_table(rt, "out entries", header.outgoing.entries, entries)?;
    print_table(rt, "in starts", header.incoming.starts, starts)?;
    print_table(rt, "in entries", header.incoming.entries, entries)
}

// Each step prints what it found before the next test can refuse.
pub fn open_card<'a>(rt: &HostRuntime, bytes: &'a [u8]) -> Result<Image<'a>, Failure> {
    let size = bytes.len();
    println!(rt; "size: {size} bytes")?;
    let header = read_header(bytes)?;
    let kind = header.kind;
    let nodes = header.nodes;
    let edges = header.edges;
    println!(rt; "kind: {kind}")?;
    println!(rt; "blocks: {nodes}")?;
    println!(rt; "links: {edges}")?;
    let layout = read_layout(bytes)?;
    print_tables(rt, &layout)?;
    let mut image: Image<'a> = Image::<'a>::new();
    open(&mut image, bytes)?;
    let nodes = image.node_bound();
    let edges = image.edge_bound();
    println!(rt; "accepted: {kind}, {nodes} blocks, {edges} links")?;
    Ok(image)
}
