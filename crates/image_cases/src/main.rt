// Opens the images that standard input describes, one to a line, and prints what `open` and `card_image_check` say,
// and for an accepted image what its graph questions answer.
//
// A line is a name, the image's length in bytes, and numbers of 32 bits that are written one after the other from byte 0 on;
// what is not written is 0. `@N` goes on at byte N, `+N` writes N more numbers, each one above the one before.
// A name that begins with `show-` also asks for every row.
#![tactic(auto)]

use anyhow::Context;
use graph::{Graph, Row};
use image::{Image, card_image_check, open};
use model::Direction;
use std::io;

// An image under construction: its bytes, where the next number goes, and the latest number.
#[derive(Drop)]
struct Draft {
    bytes: Vec<u8>,
    at: usize,
    latest: u32,
}

impl Draft {
    // What lies past the end is not written.
    fn put(&mut self, value: u32) {
        let start = self.at.min(self.bytes.len());
        self.at = self.at.saturating_add(4);
        let end = self.at.min(self.bytes.len());
        self.bytes[start..end].copy_from_slice(&value.to_le_bytes()[..end - start]);
        self.latest = value;
    }

    fn ramp(&mut self, count: u32) {
        for _ in 0..count {
            self.put(self.latest.saturating_add(1));
        }
    }

    fn add(&mut self, word: &str) -> anyhow::Result<()> {
        if let Some(place) = word.strip_prefix("@") {
            self.at = place.parse::<usize>()?;
        } else if let Some(count) = word.strip_prefix("+") {
            self.ramp(count.parse::<u32>()?);
        } else {
            self.put(word.parse::<u32>()?);
        }
        Ok(())
    }
}

fn print_row(rt: &HostRuntime, image: &Image, direction: Direction, a: u32) -> io::Result<()> {
    match direction {
        Direction::Outgoing => print!(rt; "  out {a}:")?,
        Direction::Incoming => print!(rt; "  in {a}:")?,
    }
    for (place, edge, far) in Row::new(image, direction, a) {
        print!(rt; " {place}:{edge}:{far}")?;
    }
    println!(rt; "")
}

// Kind, counts, ends and rows, one number past the counts too.
fn print_graph(rt: &HostRuntime, image: &Image) -> io::Result<()> {
    let nodes = image.node_bound();
    let edges = image.edge_bound();
    let kind = image.kind();
    println!(rt; "  {kind}, {nodes} nodes, {edges} edges")?;
    for e in 0..=edges {
        match image.edge_endpoints(e) {
            Some((tail, head)) => println!(rt; "  edge {e}: {tail} {head}")?,
            None => println!(rt; "  edge {e}: none")?,
        }
    }
    for a in 0..=nodes {
        let here = image.contains_node(a);
        println!(rt; "  node {a}: {here}")?;
        print_row(rt, image, Direction::Outgoing, a)?;
        print_row(rt, image, Direction::Incoming, a)?;
    }
    Ok(())
}

fn judge(rt: &HostRuntime, name: &str, bytes: &[u8]) -> io::Result<()> {
    let mut image = Image::new();
    let code = card_image_check(bytes);
    match open(&mut image, bytes) {
        Ok(()) => {
            println!(rt; "{name}: accepted")?;
            if code != 0 {
                println!(rt; "  but the exported check says {code}")?;
            }
            if name.starts_with("show-") {
                print_graph(rt, &image)?;
            }
        }
        Err(fault) => {
            println!(rt; "{name}: {fault}")?;
            // Written out: `u64::from(fault)` is what the check itself answers by.
            if code != u64::from(fault.number()) << 32 | u64::from(fault.offset()) {
                println!(rt; "  but the exported check says {code}")?;
            }
            if image.node_bound() != 0 || image.edge_bound() != 0 {
                println!(rt; "  and the image was changed")?;
            }
        }
    }
    Ok(())
}

fn case(rt: &HostRuntime, line: &str) -> anyhow::Result<()> {
    let mut words = line.split(' ');
    let name = words.next().context("a line without a name")?;
    let length = words.next().context("a line without a length")?;
    let bytes = vec![in rt.alloc(); 0; length.parse::<usize>()?]?;
    let mut draft = Draft {
        bytes,
        at: 0,
        latest: 0,
    };
    for word in words {
        draft.add(word)?;
    }
    judge(rt, name, draft.bytes.as_slice())?;
    Ok(())
}

fn run(rt: &HostRuntime) -> anyhow::Result<()> {
    for line in rt.lines(rt.alloc()) {
        case(rt, line?.as_str())?;
    }
    Ok(())
}

fn main(rt: HostRuntime) -> anyhow::Result<()> {
    run(&rt)
}
