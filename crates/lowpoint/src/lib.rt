// The low-point search over plain rows: each function has one theorem as its contract.
#![tactic(auto)]

ghost use Rattle.lowpoint.specs.Cuts.{CutsLaw};
ghost use Rattle.lowpoint.specs.Finds.{FindsLaw};
ghost use Rattle.lowpoint.specs.Steps.{StepLaw};
ghost use Rattle.lowpoint.specs.Lows.{BridgeLaw, NodeLaw, LoopLaw};

// The lists hold the bridges and the cut nodes of every graph, and nothing else, ascending.
pub fn cuts_law()
    ensures { CutsLaw }
{}

// The search lists the bridges of rows.
pub fn bridge_law()
    ensures { BridgeLaw }
{}

// The search scores the cut nodes of rows with 2 or more.
pub fn node_law()
    ensures { NodeLaw }
{}

// The loop over a stack does what the search does.
pub fn loop_law()
    ensures { LoopLaw }
{}

// What the search of a two-way graph finds are its bridges and its cut nodes.
pub fn finds_law()
    ensures { FindsLaw }
{}

// A step over lent memory is some turns of the loop, and lowers what is left.
pub fn step_law()
    ensures { StepLaw }
{}
