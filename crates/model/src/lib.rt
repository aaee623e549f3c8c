// What a graph means, what its views mean, and what follows for every graph.
// The definitions stand in specs/; each function here has one law of theirs as its contract.
#![tactic(auto)]

mod bit;
mod kinds;

ghost use Rattle.std.specs.Prelude.{◌≡◌};
ghost use Rattle.model.specs.Laws.{AbsentRows, Mirror, NoCycle, PathPresent, RowBound};
ghost use Rattle.model.specs.Views.{opposite, ViewsLawful, ReversedTwice, NodeFilterPaths, EdgeFilterPaths, WholeFilters};

pub use bit::has_bit;
pub use kinds::UnknownKind;

// A one-way graph has edges from tail to head, a two-way graph edges between two ends.
#[derive(Clone, Copy, PartialEq, Eq, Debug)]
pub enum Kind {
    OneWay,
    TwoWay,
}

// Out rows or in rows.
#[derive(Clone, Copy, PartialEq, Eq, Debug)]
pub enum Direction {
    Outgoing,
    Incoming,
}

impl Direction {
    // The other direction.
    pub fn opposite(self) -> Direction
        ensures { result ≡ opposite self }
    {
        match self {
            Direction::Outgoing => Direction::Incoming,
            Direction::Incoming => Direction::Outgoing,
        }
    }
}

// Absent nodes have empty rows.
pub fn absent_rows()
    ensures { AbsentRows }
{}

// An edge leads from a to b in the out row of a exactly when it leads from b to a in the in row of b.
pub fn mirror()
    ensures { Mirror }
{}

// A graph with a topological order has no cycle.
pub fn no_cycle()
    ensures { NoCycle }
{}

// A path touches present nodes only.
pub fn path_present()
    ensures { PathPresent }
{}

// All rows of a direction together hold at most M entries, two-way 2·M.
pub fn row_bound()
    ensures { RowBound }
{}

// Every view of a graph is again a graph.
pub fn views_lawful()
    ensures { ViewsLawful }
{}

// Reversed twice, a graph is itself.
pub fn reversed_twice()
    ensures { ReversedTwice }
{}

// The paths in a node filter are the paths below that touch kept nodes only.
pub fn node_filter_paths()
    ensures { NodeFilterPaths }
{}

// The paths in an edge filter are the paths below that use kept edges only.
pub fn edge_filter_paths()
    ensures { EdgeFilterPaths }
{}

// A filter that keeps all changes nothing.
pub fn whole_filters()
    ensures { WholeFilters }
{}
