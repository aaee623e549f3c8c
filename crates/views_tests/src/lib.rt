// Views and marks of every implementation, on examples.
#![tactic(auto)]

use graph::{Graph, Row};
use model::Direction;

// How many entries the out rows of a graph hold, whatever pile it is. One by one: `count` and `sum` want a
// bound shown, which would take a proof file in a crate of tests.
pub fn count_entries<G: Graph>(graph: &G) -> u32 {
    let mut n: u32 = 0;
    for a in 0..graph.node_bound() {
        for _ in Row::new(graph, Direction::Outgoing, a) {
            n = n.saturating_add(1);
        }
    }
    n
}

#[cfg(test)]
mod tests {
    use super::count_entries;
    use filter::Bits;
    use graph::{Graph, row_limit};
    use marks::{VisitMap, WordMarks};
    use model::Direction;
    use samples::{FlagMarks, Sparse};
    use std::process::Abort;
    use views::{EdgeFiltered, NodeFiltered, Reversed};

    // The one edge of the sparse graph as a view shows it.
    fn check_edge<G: Graph>(rt: &impl Abort, graph: &G, near: u32, far: u32, place: u32) {
        assert_eq!(rt; graph.edge_endpoints(1), Some((near, far)));
        assert_eq!(rt; graph.edge_endpoints(0), None);
        assert_eq!(rt; graph.edge_endpoints(2), None);
        assert_eq!(rt;
            graph.row_entry(Direction::Outgoing, near, 0),
            Some((place, 1, far))
        );
        assert_eq!(rt;
            graph.row_entry(Direction::Outgoing, near, place),
            Some((place, 1, far))
        );
        assert_eq!(rt;
            graph.row_entry(Direction::Outgoing, near, place.saturating_add(1)),
            None
        );
        assert_eq!(rt; graph.row_entry(Direction::Outgoing, 1, 0), None);
        assert_eq!(rt; graph.row_entry(Direction::Outgoing, 3, 0), None);
        assert!(rt; !graph.contains_node(1) && !graph.contains_node(3));
        assert_eq!(rt; count_entries(graph), 1);
        assert_eq!(rt; row_limit(graph), 2);
    }

    #[test]
    fn gaps_stay(rt: HostRuntime) {
        check_edge(&rt, &Sparse, 0, 2, 7);
        check_edge(&rt, &&Sparse, 0, 2, 7);
        check_edge(&rt, &Reversed(Sparse), 2, 0, 3);
        check_edge(&rt, &Reversed(Reversed(Sparse)), 0, 2, 7);
    }

    #[test]
    fn piles_of_three(rt: HostRuntime) {
        let all: [u8; 1] = [7];
        let pile = Reversed(NodeFiltered(EdgeFiltered(Sparse, 0..2), Bits(&all)));
        check_edge(&rt, &pile, 2, 0, 3);
        // A filter shorter than N: node 2 is past its bits.
        let none: [u8; 0] = [];
        let short = NodeFiltered(Reversed(EdgeFiltered(Sparse, 1..2)), Bits(&none));
        assert!(rt; !short.contains_node(0) && !short.contains_node(2));
        assert_eq!(rt; count_entries(&short), 0);
        assert_eq!(rt; short.edge_endpoints(1), None);
        // Empty ranges: from their end on, and backwards.
        let empty = EdgeFiltered(EdgeFiltered(Reversed(Sparse), 0..3), 2..2);
        assert_eq!(rt; count_entries(&empty), 0);
        assert!(rt; empty.contains_node(2));
        assert_eq!(rt; count_entries(&EdgeFiltered(Sparse, 3..1)), 0);
        // Without one end the edge is gone.
        let one: [u8; 1] = [4];
        let half = NodeFiltered(Sparse, Bits(&one));
        assert!(rt; half.contains_node(2) && !half.contains_node(0));
        assert_eq!(rt; half.row_entry(Direction::Incoming, 2, 0), None);
        assert_eq!(rt; half.edge_endpoints(1), None);
    }

    // What holds of all marks that are clear and have this capacity.
    fn exercise<M: VisitMap>(rt: &impl Abort, marks: &mut M, capacity: u32) {
        assert_eq!(rt; marks.capacity(), capacity);
        assert_eq!(rt; marks.visit(capacity), false);
        assert_eq!(rt; marks.visit(u32::MAX), false);
        assert_eq!(rt; marks.is_visited(capacity), false);
        assert_eq!(rt; marks.unvisit(capacity), false);
        assert_eq!(rt; marks.first_unmarked(capacity), None);
        for k in 0..capacity {
            assert_eq!(rt; marks.first_unmarked(0), Some(k));
            assert_eq!(rt; marks.is_visited(k), false);
            assert_eq!(rt; marks.visit(k), true);
            assert_eq!(rt; marks.visit(k), false);
        }
        assert_eq!(rt; marks.first_unmarked(0), None);
        for k in 0..capacity {
            assert_eq!(rt; marks.unvisit(k), true);
            assert_eq!(rt; marks.unvisit(k), false);
            assert_eq!(rt; marks.first_unmarked(0), Some(k));
            assert_eq!(rt; marks.visit(k), true);
        }
        marks.clear();
        assert_eq!(rt; marks.capacity(), capacity);
        for k in 0..capacity {
            assert_eq!(rt; marks.is_visited(k), false);
        }
    }

    #[test]
    fn word_marks(rt: HostRuntime) {
        for capacity in [0, 1, 63, 64, 65] {
            let mut words: [u64; 2] = [0, 0];
            exercise(&rt, &mut WordMarks::new(&mut words, capacity), capacity);
        }
        // The capacity is never more than the words have.
        let mut words: [u64; 1] = [0];
        exercise(&rt, &mut WordMarks::new(&mut words, 65), 64);
        let mut words: [u64; 0] = [];
        exercise(&rt, &mut WordMarks::new(&mut words, 7), 0);
    }

    #[test]
    fn flag_marks(rt: HostRuntime) {
        let mut one: [u8; 1] = [0];
        exercise(&rt, &mut FlagMarks::new(&mut one), 1);
        let mut many: [u8; 65] = [0; 65];
        exercise(&rt, &mut FlagMarks::new(&mut many), 65);
        let mut none: [u8; 0] = [];
        exercise(&rt, &mut FlagMarks::new(&mut none), 0);
    }

    #[test]
    fn past_the_capacity(rt: HostRuntime) {
        let mut words: [u64; 3] = [u64::MAX, u64::MAX, u64::MAX];
        {
            let mut marks = WordMarks::new(&mut words, 70);
            assert_eq!(rt; marks.first_unmarked(0), None);
            assert_eq!(rt; marks.unvisit(69), true);
            assert_eq!(rt; marks.first_unmarked(3), Some(69));
            marks.clear();
            assert_eq!(rt; marks.first_unmarked(0), Some(0));
            assert_eq!(rt; marks.visit(69), true);
        }
        assert_eq!(rt; words[0], 0);
        assert_eq!(rt; words[1], u64::MAX - 31);
        assert_eq!(rt; words[2], u64::MAX);
    }
}
