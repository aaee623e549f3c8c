// Graph theory over plain lists and numbers: each function has one theorem as its contract.
#![tactic(auto)]

ghost use Rattle.theory.specs.Loops.{TrackLaw, SeenLaw};
ghost use Rattle.theory.specs.Models.{OrdersLaw, PathsLaw};
ghost use Rattle.theory.specs.Order.{OrderLaw, NameLaw, LoopLaw};
ghost use Rattle.theory.specs.Search.{PreorderLaw};
ghost use Rattle.theory.specs.Walk.{WalkLaw};

// The depth-first order lists each node that a path reaches once, and nothing else.
pub fn preorder_law()
    ensures { PreorderLaw }
{}

// The walk over a stack shows nodes in depth-first order, and its stack stays small.
pub fn walk_law()
    ensures { WalkLaw }
{}

// The finishing order, reversed, lists each node once, with every edge running forward exactly when there is no cycle.
pub fn order_law()
    ensures { OrderLaw }
{}

// A node is named exactly when there is a cycle, and is on one.
pub fn name_law()
    ensures { NameLaw }
{}

// The loop over one stack computes the finishing order.
pub fn loop_law()
    ensures { LoopLaw }
{}

// So does the loop that notes the first self-loop, and what it notes is the first in the order of discovery.
pub fn track_law()
    ensures { TrackLaw }
{}

// The search discovers what paths reach.
pub fn seen_law()
    ensures { SeenLaw }
{}

// The write order of a graph is topological exactly when no node is named, which is when there is no cycle; a named node is on one.
pub fn orders_law()
    ensures { OrdersLaw }
{}

// The search from a node discovers exactly the nodes that a path leads to.
pub fn paths_law()
    ensures { PathsLaw }
{}
