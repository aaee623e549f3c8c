// cardplan: checks a card image step by step, and tells in which order its changed blocks are written, which links and blocks
// of a two-way card are weak, or why the card is refused.
#![tactic(auto)]

mod card;
mod failure;
mod flush;
mod memory;
mod weak;

use card::open_card;
use failure::{Failure, rule};
use flush::print_order;
use graph::Graph;
use memory::Memory;
use std::process::ExitCode;
use std::{env, fs};
use weak::print_weak;

// Bits that are all set, for so many blocks.
fn all_changed(rt: &HostRuntime, blocks: u32) -> Result<Vec<u8>, Failure> {
    Ok(vec![in rt.alloc(); u8::MAX; (blocks / 8) as usize + 1]?)
}

fn read(rt: &HostRuntime, path: &str) -> Result<Vec<u8>, Failure> {
    match fs::read(rt, path) {
        Ok(bytes) => Ok(bytes),
        Err(error) => {
            eprintln!(rt; "cannot read {path}: {error}")?;
            Err(Failure::Told)
        }
    }
}

fn plan(rt: &HostRuntime, bytes: &[u8], changed: Option<String>) -> Result<(), Failure> {
    let image = open_card(rt, bytes)?;
    let bits = match changed {
        Some(path) => read(rt, path.as_str())?,
        None => all_changed(rt, image.node_bound())?,
    };
    let mut memory = Memory::new(rt.alloc(), &image)?;
    let looped = print_order(rt, bytes, bits.as_slice(), &image, &mut memory)?;
    print_weak(rt, &image, &mut memory)?;
    match looped {
        Some(block) => Err(Failure::Cycle(block)),
        None => Ok(()),
    }
}

fn run(rt: &HostRuntime) -> Result<(), Failure> {
    let mut args = env::args(rt)?.skip(1);
    let path = args.next().ok_or(Failure::Usage)?;
    let changed = args.next();
    if args.next().is_some() {
        return Err(Failure::Usage);
    }
    println!(rt; "card: {path}")?;
    let bytes = read(rt, path.as_str())?;
    plan(rt, bytes.as_slice(), changed)
}

fn main(rt: HostRuntime) -> ExitCode {
    match run(&rt) {
        Err(Failure::Usage) => {
            let _ = eprintln!(rt; "usage: cardplan IMAGE [CHANGED]");
        }
        Err(Failure::Card(fault)) => {
            let rule = rule(fault);
            let _ = eprintln!(rt; "{fault}: {rule}");
        }
        Err(Failure::Call(refusal)) => {
            let _ = eprintln!(rt; "{refusal}");
        }
        Err(Failure::Cycle(block)) => {
            let _ = eprintln!(rt; "no order: block {block} is on a cycle");
        }
        Err(Failure::NoMemory) => {
            let _ = eprintln!(rt; "out of memory");
        }
        Err(Failure::Told) => {}
        Ok(()) => return ExitCode::SUCCESS,
    }
    ExitCode::FAILURE
}
