// What the definitions come to on small graphs.
#![tactic(auto)]

ghost use Rattle.examples.specs.Examples.{Examples};
ghost use Rattle.examples.specs.Refuted.{Refuted};

// Write orders, cycle nodes, paths, a walk, a run, bridges and cut nodes, each by computation.
pub fn examples()
    ensures { Examples }
{}

// The law of runs refuses worthless answers: each of these runs has a wrong one.
pub fn worthless()
    ensures { Refuted }
{}
