// The card image's format: its definitions stand in specs/, and its two laws are contracts here.
#![tactic(auto)]

ghost use Rattle.format.specs.Laws.{AcceptedGraph, AcceptedWellFormed};

// An accepted image means a graph that keeps every law of graphs.
pub fn accepted_graph()
    ensures { AcceptedGraph }
{}

// An image is accepted exactly when it is well-formed.
pub fn accepted_well_formed()
    ensures { AcceptedWellFormed }
{}
