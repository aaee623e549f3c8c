// The write order of the changed blocks.
use crate::failure::Failure;
use crate::memory::Memory;
use filter::{Bits, Filter};
use graph::Graph;
use image::Image;
use marks::WordMarks;
use model::Kind;
use order::Cycle;
use plan::flush_plan;
use std::io;

const NUMBERS_PER_LINE: usize = 16;

fn print_line(rt: &HostRuntime, numbers: &[u32]) -> io::Result<()> {
    print!(rt; " ")?;
    for k in numbers {
        print!(rt; " {k}")?;
    }
    println!(rt; "")
}

// The first numbers of a list.
pub fn print_numbers(rt: &HostRuntime, list: &[u32], count: u32) -> io::Result<()> {
    let end = list.len().min(count as usize);
    for numbers in list[..end].chunks(NUMBERS_PER_LINE) {
        print_line(rt, numbers)?;
    }
    Ok(())
}

// Why there is no order. It answers the block on a one-way card alone: on a two-way one every link is a cycle of its own, and
// nothing is wrong.
fn print_cycle(rt: &HostRuntime, kind: Kind, cycle: Cycle<u32>) -> io::Result<Option<u32>> {
    let block = cycle.node_id();
    println!(rt; "cycle: block {block}")?;
    match kind {
        Kind::OneWay => {
            println!(rt;
                "  links between changed blocks put it before itself, so there is no order"
            )?;
            Ok(Some(block))
        }
        Kind::TwoWay => {
            println!(rt;
                "  a link of a two-way card puts each end before the other, so there is no order"
            )?;
            Ok(None)
        }
    }
}

// How many blocks changed, and their write order; or a block on a cycle, which it also answers where the card is one-way.
pub fn print_order(
    rt: &HostRuntime,
    bytes: &[u8],
    changed: &[u8],
    image: &Image,
    memory: &mut Memory,
) -> Result<Option<u32>, Failure> {
    let nodes = image.node_bound();
    let count = (0..nodes).filter(|k| Bits(changed).contains(*k)).count();
    println!(rt; "changed: {count} of {nodes} blocks")?;
    let mut marks = WordMarks::new(memory.words.as_mut_slice(), nodes);
    let stack = memory.stack.as_mut_slice();
    let table = memory.table.as_mut_slice();
    let res = memory.res.as_mut_slice();
    match flush_plan(bytes, changed, stack, table, &mut marks, res)? {
        Ok(count) => {
            println!(rt; "order: {count} blocks")?;
            print_numbers(rt, res, count)?;
            Ok(None)
        }
        Err(cycle) => Ok(print_cycle(rt, image.kind(), cycle)?),
    }
}
