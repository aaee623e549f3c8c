// replay: answers the questions of a case file anew, so that a diff with the file shows every difference.
//
// Lines: `case NAME`, `graph d|u N`, `edge A B`, `view rev`, `view nodes BITS`, `view edges BITS` (innermost first), questions, `end`.
// What a question has after ` = ` is ignored. Comments and all other lines are printed as they are.
//
// Questions: `nodes`, `edges`, `out A`, `in A`, `marks CAPACITY CALL ..`, `dfs A`, `walk to A`, `walk next`, `walk reset`,
// `toposort`, `path A B`, `bridges`, `cuts`, `plan BITS` (of the card, whatever the views). Any other is answered `unknown`.
// The walk questions of a case share one workspace, and tell its stack too, the bottom first.
#![tactic(auto)]

mod answers;
mod asked;
mod case;
mod pile;
mod plans;
mod questions;
mod viewed;
mod walks;

use anyhow::Context;
use case::{Case, View};
use model::Kind;
use std::{env, fs};

fn number(word: Option<&str>) -> anyhow::Result<u32> {
    Ok(word.context("a number is missing")?.parse::<u32>()?)
}

// Takes in a line that describes the case; no where the line is something else.
fn describes(rt: &HostRuntime, now: &mut Case, line: &str) -> anyhow::Result<bool> {
    let mut words = line.split(' ');
    match words.next() {
        Some("case") => *now = Case::new(rt.alloc()),
        Some("graph") => {
            now.kind = match words.next() {
                Some("u") => Kind::TwoWay,
                _ => Kind::OneWay,
            };
            now.nodes = number(words.next())?;
        }
        Some("edge") => {
            let tail = number(words.next())?;
            let head = number(words.next())?;
            now.edges.push((tail, head))?;
        }
        Some("view") => {
            let view = View::read(rt.alloc(), words.next(), words.next())?;
            now.views.push(view)?;
        }
        Some("end") => {}
        _ => return Ok(line.starts_with("#") || line.is_empty()),
    }
    Ok(true)
}

fn replay(rt: &HostRuntime, text: &str) -> anyhow::Result<()> {
    let mut now = Case::new(rt.alloc());
    for line in text.lines() {
        if describes(rt, &mut now, line)? {
            println!(rt; "{line}")?;
            continue;
        }
        let question = line
            .split_once(" = ")
            .map_or(line, |(question, _)| question);
        print!(rt; "{question} =")?;
        answers::ask(rt, &mut now, question)?;
        println!(rt; "")?;
    }
    Ok(())
}

fn run(rt: &HostRuntime) -> anyhow::Result<()> {
    let path = env::args(rt)?.nth(1).context("usage: replay FILE")?;
    let text = fs::read_to_string(rt, path.as_str())?;
    replay(rt, text.as_str())
}

fn main(rt: HostRuntime) -> anyhow::Result<()> {
    run(&rt)
}
