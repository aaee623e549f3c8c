// The law of runs: its statement in specs/Runs.antt and specs/Law.antt, in the words of calls and answers alone, and its theorem as a contract here.
#![tactic(auto)]

mod call;

ghost use Rattle.law.specs.Plays.{RunLaw};

pub use call::{Answer, Call, Question, Reply, Said};

// Whatever calls are made on a new workspace, over whatever memory and marks, their answers keep the law.
pub fn run_law()
    ensures { RunLaw }
{}
