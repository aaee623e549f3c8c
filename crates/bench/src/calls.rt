// The calls that are timed, and what they answer.
use std::fmt;

#[derive(Clone, Copy)]
pub enum Call {
    // A walk over everything.
    Walk,
    Toposort,
    Path(u32, u32),
    Bridges,
    CutNodes,
}

// What a call answers; what it lists, so many numbers, stands in result memory.
#[derive(Clone, Copy)]
pub enum Answer {
    Listed(usize),
    Order(usize),
    Cycle(u32),
    Joined(bool),
}

impl fmt::Display for Call {
    fn fmt<W: fmt::Write>(&self, f: &mut fmt::Formatter<W>) -> fmt::Result {
        match self {
            Call::Walk => f.write_str("walk"),
            Call::Toposort => f.write_str("toposort"),
            Call::Path(_, _) => f.write_str("has_path_connecting"),
            Call::Bridges => f.write_str("bridges"),
            Call::CutNodes => f.write_str("articulation_points"),
        }
    }
}

impl Answer {
    pub fn count(self) -> usize {
        match self {
            Answer::Listed(count) | Answer::Order(count) => count,
            Answer::Cycle(_) | Answer::Joined(_) => 0,
        }
    }
}

impl fmt::Display for Answer {
    fn fmt<W: fmt::Write>(&self, f: &mut fmt::Formatter<W>) -> fmt::Result {
        match self {
            Answer::Listed(count) => write!(f, "{count} numbers"),
            Answer::Order(count) => write!(f, "order {count} numbers"),
            Answer::Cycle(a) => write!(f, "cycle {a} 0 numbers"),
            Answer::Joined(true) => f.write_str("yes 0 numbers"),
            Answer::Joined(false) => f.write_str("no 0 numbers"),
        }
    }
}
