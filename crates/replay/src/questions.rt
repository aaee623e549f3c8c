// Questions of a whole graph, each in a new workspace over memory that is just large enough and full of junk.
use crate::answers::print_each;
use graph::Graph;
use law::Reply;
use std::io;
use support::{Question, ask_over_junk};

// The first entries of result memory, as an order.
pub fn print_order(rt: &HostRuntime, res: &[u32], count: u32) -> io::Result<()> {
    print!(rt; " order")?;
    for a in res.iter().take(count as usize) {
        print!(rt; " {a}")?;
    }
    Ok(())
}

pub fn answer_question<G: Graph>(
    rt: &HostRuntime,
    graph: &G,
    question: Question,
) -> anyhow::Result<()> {
    let (desk, answer) = ask_over_junk(rt.alloc(), graph, question)?;
    match answer {
        Ok(Reply::Ordered(count)) => print_order(rt, desk.res.as_slice(), count)?,
        Ok(Reply::Cycle(a)) => print!(rt; " cycle {a}")?,
        Ok(Reply::Path(true)) => print!(rt; " yes")?,
        Ok(Reply::Path(false)) => print!(rt; " no")?,
        Ok(Reply::Listed(count)) => print_each(rt, desk.res.iter().take(count as usize).copied())?,
        Err(refusal) => print!(rt; " {refusal}")?,
    }
    Ok(())
}
