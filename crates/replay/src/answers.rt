// Questions and their answers.
ghost use Rattle.std.specs.Iterator.{IsFinite};

use crate::case::Case;
use crate::pile::ask_pile;
use crate::plans::answer_plan;
use crate::questions::answer_question;
use crate::walks::{Walk, answer_dfs, answer_walk};
use anyhow::{Context, anyhow};
use graph::{Graph, Row};
use image::{Image, open};
use law::Call;
use marks::{VisitMap, WordMarks};
use model::Direction;
use std::str::FromStr;
use std::{fmt, io};

#[derive(Clone, Copy)]
pub enum Question {
    Nodes,
    Edges,
    Row(Direction, u32),
    Dfs(u32),
    Walk(Call),
    Whole(support::Question),
}

// A line that is no question.
#[derive(Clone, Copy, Debug)]
pub struct UnknownQuestion;

impl FromStr for Question {
    type Err = UnknownQuestion;

    fn from_str(text: &str) -> Result<Question, UnknownQuestion> {
        match text {
            "nodes" => Ok(Question::Nodes),
            "edges" => Ok(Question::Edges),
            "toposort" => Ok(Question::Whole(support::Question::Order)),
            "bridges" => Ok(Question::Whole(support::Question::Bridges)),
            "cuts" => Ok(Question::Whole(support::Question::CutNodes)),
            "walk next" => Ok(Question::Walk(Call::Next)),
            "walk reset" => Ok(Question::Walk(Call::Reset)),
            _ => of_node(text).ok_or(UnknownQuestion),
        }
    }
}

// A question whose last word is a node.
fn of_node(text: &str) -> Option<Question> {
    let (kind, node) = text.rsplit_once(' ')?;
    let a = node.parse::<u32>().ok()?;
    match kind {
        "out" => Some(Question::Row(Direction::Outgoing, a)),
        "in" => Some(Question::Row(Direction::Incoming, a)),
        "dfs" => Some(Question::Dfs(a)),
        "walk to" => Some(Question::Walk(Call::MoveTo(a))),
        _ => {
            let from = kind.strip_prefix("path ")?.parse::<u32>().ok()?;
            Some(Question::Whole(support::Question::Path(from, a)))
        }
    }
}

// Each item after a blank, or that there is none.
pub(crate) fn print_each<T: fmt::Display + Drop, I: Iterator<Item = T> + Drop>(
    rt: &HostRuntime,
    items: I,
) -> io::Result<()>
    requires can { I.can_next items }
    requires ends { IsFinite (I.remaining items) }
{
    let mut none = true;
    for item in items {
        print!(rt; " {item}")?;
        none = false;
    }
    if none {
        print!(rt; " none")?;
    }
    Ok(())
}

// An edge with its ends.
#[derive(Clone, Copy)]
struct Edge(u32, (u32, u32));

impl fmt::Display for Edge {
    fn fmt<W: fmt::Write>(&self, f: &mut fmt::Formatter<W>) -> fmt::Result {
        let Edge(e, (tail, head)) = *self;
        write!(f, "{e}:{tail}-{head}")
    }
}

// An entry of a row: an edge and its far node.
#[derive(Clone, Copy)]
struct Entry(u32, u32);

impl fmt::Display for Entry {
    fn fmt<W: fmt::Write>(&self, f: &mut fmt::Formatter<W>) -> fmt::Result {
        let Entry(e, far) = *self;
        write!(f, "{e}:{far}")
    }
}

fn answer_nodes<G: Graph>(rt: &HostRuntime, graph: &G) -> io::Result<()> {
    print_each(
        rt,
        (0..graph.node_bound()).filter(|a| graph.contains_node(*a)),
    )
}

fn answer_edges<G: Graph>(rt: &HostRuntime, graph: &G) -> io::Result<()> {
    print_each(
        rt,
        (0..graph.edge_bound()).filter_map(|e| graph.edge_endpoints(e).map(|ends| Edge(e, ends))),
    )
}

fn answer_row<G: Graph>(
    rt: &HostRuntime,
    graph: &G,
    direction: Direction,
    a: u32,
) -> io::Result<()> {
    print_each(
        rt,
        Row::new(graph, direction, a).map(|(_, e, far)| Entry(e, far)),
    )
}

// A call on the walk that is kept, or on a new one where there is none yet.
fn answer_kept<G: Graph>(
    rt: &HostRuntime,
    graph: &G,
    kept: &mut Option<Walk>,
    call: Call,
) -> anyhow::Result<()> {
    let mut walk = match kept.take() {
        Some(walk) => walk,
        None => Walk::new(rt.alloc(), graph)?,
    };
    answer_walk(rt, graph, &mut walk, call)?;
    *kept = Some(walk);
    Ok(())
}

pub fn answer<G: Graph>(
    rt: &HostRuntime,
    graph: &G,
    question: &Question,
    kept: &mut Option<Walk>,
) -> anyhow::Result<()> {
    match question {
        Question::Nodes => answer_nodes(rt, graph)?,
        Question::Edges => answer_edges(rt, graph)?,
        Question::Row(direction, a) => answer_row(rt, graph, *direction, *a)?,
        Question::Dfs(a) => answer_dfs(rt, graph, *a)?,
        Question::Walk(call) => answer_kept(rt, graph, kept, *call)?,
        Question::Whole(question) => answer_question(rt, graph, *question)?,
    }
    Ok(())
}

// One call on marks: a letter and a number.
fn mark(marks: &mut WordMarks, call: &str) -> anyhow::Result<&'static str> {
    if call == "c" {
        marks.clear();
        return Ok("-");
    }
    let yes = match call.split_at_checked(1) {
        Some(("v", k)) => marks.visit(k.parse::<u32>()?),
        Some(("u", k)) => marks.unvisit(k.parse::<u32>()?),
        Some(("i", k)) => marks.is_visited(k.parse::<u32>()?),
        _ => return Err(anyhow!("an unknown call on marks")),
    };
    Ok(if yes { "yes" } else { "no" })
}

fn answer_marks(rt: &HostRuntime, question: &str) -> anyhow::Result<()> {
    let mut words = question.split(' ').skip(1);
    let capacity = words.next().context("no capacity")?.parse::<u32>()?;
    let mut memory: Vec<u64> = vec![in rt.alloc(); 0; (capacity / 64) as usize + 1]?;
    let mut marks = WordMarks::new(memory.as_mut_slice(), capacity);
    for call in words {
        let said = mark(&mut marks, call)?;
        print!(rt; " {said}")?;
    }
    Ok(())
}

pub fn ask(rt: &HostRuntime, case: &mut Case, question: &str) -> anyhow::Result<()> {
    if question.starts_with("marks ") {
        return answer_marks(rt, question);
    }
    if let Some(bits) = question.strip_prefix("plan ") {
        return answer_plan(rt, case, bits);
    }
    let Ok(asked) = question.parse::<Question>() else {
        print!(rt; " unknown")?;
        return Ok(());
    };
    let bytes = case.pack(rt.alloc())?;
    let mut image = Image::new();
    open(&mut image, bytes.as_slice()).map_err(|_| anyhow!(
        "the case does not pack into an image"
    ))?;
    ask_pile(rt, &image, case.views.as_slice(), &asked, &mut case.walk)
}
