// The calls of a run, and their answers, as values: the law speaks of lists of them.
ghost use Rattle.std.specs.Prelude.{◌≡◌};
ghost use Rattle.law.specs.Runs.{lent_with, lent};

use workspace::Refusal;

// A question; where it writes, with the length of the result memory that is lent with it.
#[derive(Clone, Copy, PartialEq, Eq, Debug)]
pub enum Question {
    Toposort(usize),
    HasPathConnecting(u32, u32),
    Bridges(usize),
    ArticulationPoints(usize),
}

#[derive(Clone, Copy, PartialEq, Eq, Debug)]
pub enum Call {
    Empty,
    MoveTo(u32),
    Next,
    Reset,
    Ask(Question),
}

// What a granted question tells: how many nodes the order has, or a node on a cycle; whether there is a path; how many numbers are listed.
#[derive(Clone, Copy, PartialEq, Eq, Debug)]
pub enum Reply {
    Ordered(u32),
    Cycle(u32),
    Path(bool),
    Listed(u32),
}

// What a granted call says: that it is done; the node that is shown; that there is none to show; what a question tells.
#[derive(Clone, Copy, PartialEq, Eq, Debug)]
pub enum Said {
    Done,
    Shown(u32),
    End,
    Told(Reply),
}

// What a granted call says, or why it is refused.
pub type Answer = Result<Said, Refusal>;

impl Question {
    // How much result memory is lent with it.
    pub fn lent(self) -> usize
        ensures { result ≡ lent_with self }
    {
        match self {
            Question::Toposort(size) => size,
            Question::HasPathConnecting(_, _) => 0,
            Question::Bridges(size) => size,
            Question::ArticulationPoints(size) => size,
        }
    }
}

impl Call {
    // How much result memory is lent with it.
    pub fn lent(self) -> usize
        ensures { result ≡ lent self }
    {
        match self {
            Call::Ask(question) => question.lent(),
            Call::Empty | Call::MoveTo(_) | Call::Next | Call::Reset => 0,
        }
    }
}
