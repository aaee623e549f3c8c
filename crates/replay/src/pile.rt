// The case's pile of views over its image, to a depth of three, and what is asked of it.
use crate::answers::{Question, answer};
use crate::case::View;
use crate::viewed::Viewed;
use crate::walks::Walk;
use graph::Graph;

// The innermost view comes first.
pub fn ask_pile<G: Graph>(
    rt: &HostRuntime,
    graph: &G,
    views: &[View],
    question: &Question,
    kept: &mut Option<Walk>,
) -> anyhow::Result<()> {
    if views.len() > 3 {
        print!(rt; " unknown")?;
        return Ok(());
    }
    let first = Viewed::by(graph, views.first());
    let second = Viewed::by(first, views.get(1));
    let third = Viewed::by(second, views.get(2));
    answer(rt, &third, question, kept)
}
