// A second graph, with gaps, and a second, plainer kind of marks: for tests of what holds of every implementation.
#![tactic(auto)]

mod flags;

ghost use Rattle.std.specs.Prelude.{◌≡◌, ◌<◌, ◌≤◌, length, take, slice_index, slice_set, MatchOption};
ghost use Rattle.samples.specs.Flags.{flagged, flagged_below};
ghost use Rattle.samples.specs.Sparse.{sparse, sparse_lawful};

pub use flags::FlagMarks;
use graph::Graph;
use marks::VisitMap;
use model::{Direction, Kind};

// Nodes 0 and 2 of three, edge 1 of two, from 0 to 2, at place 7 of its out row and at place 3 of its in row.
#[derive(Clone, Copy)]
pub struct Sparse;

impl Graph for Sparse {
    ghost model = { λ _. sparse };

    ghost lawful = { λ _. sparse_lawful };

    fn kind(&self) -> Kind {
        Kind::OneWay
    }

    fn node_bound(&self) -> u32 {
        3
    }

    fn edge_bound(&self) -> u32 {
        2
    }

    fn contains_node(&self, a: u32) -> bool {
        0 == a || 2 == a
    }

    fn edge_endpoints(&self, e: u32) -> Option<(u32, u32)> {
        if 1 == e { Some((0, 2)) } else { None }
    }

    fn row_entry(&self, direction: Direction, a: u32, place: u32) -> Option<(u32, u32, u32)> {
        match direction {
            Direction::Outgoing => {
                if 0 == a && place <= 7 {
                    return Some((7, 1, 2));
                }
            }
            Direction::Incoming => {
                if 2 == a && place <= 3 {
                    return Some((3, 1, 0));
                }
            }
        }
        None
    }
}

impl<'a> FlagMarks<'a> {
    // Marks over lent bytes as they stand; bytes past 2^32 - 1 are not used.
    pub fn new(flags: &'a mut [u8]) -> FlagMarks<'a>
        ensures { result.flags.now ≡ take 4294967295 flags.old }
    {
        if flags.len() > 4294967295 {
            return FlagMarks {
                flags: &mut flags[0..4294967295],
            };
        }
        FlagMarks { flags }
    }

    // Writes the byte of a number, and tells what stood there; nothing where there is none. By index: no proof for a write
    // through what `get_mut` lends.
    fn put(&mut self, k: u32, flag: u8) -> Option<u8>
        ensures { MatchOption result ((length self.old.flags.now ≤ k) × (self.new ≡ self.old)) (λ old. (k < length self.old.flags.now) × (old ≡ slice_index self.old.flags.now k) × (self.new.flags.now ≡ slice_set self.old.flags.now k flag)) }
    {
        let at = k as usize;
        if at >= self.flags.len() {
            return None;
        }
        let old = self.flags[at];
        self.flags[at] = flag;
        Some(old)
    }
}

impl<'a> VisitMap for FlagMarks<'a> {
    ghost marked = { λ m. flagged m.flags.now };

    ghost limit = { λ m. length m.flags.now };

    ghost bounded = { λ m k h. flagged_below m.flags.now k h };

    fn capacity(&self) -> u32 {
        self.flags.len() as u32
    }

    fn is_visited(&self, k: u32) -> bool {
        self.flags.get(k as usize).is_some_and(|flag| *flag != 0)
    }

    fn visit(&mut self, k: u32) -> bool {
        self.put(k, 1) == Some(0)
    }

    fn unvisit(&mut self, k: u32) -> bool {
        self.put(k, 0).is_some_and(|old| old != 0)
    }

    fn clear(&mut self) {
        self.flags.fill(0);
    }
}
