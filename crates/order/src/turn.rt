// The turns of a search: every node is met twice, and the second time it is finished.
ghost use Rattle.std.specs.Prelude.{◌≡◌, ◌+◌, ◌-◌, ◌*◌, ◌^◌, ◌<◌, ◌≤◌, false, not, ◌&&◌, ◌||◌, length, if◌then◌else◌, Some, None, ◌==◌, nat_eq, [], ◌∷◌, slice_index, slice_set};
ghost use Rattle.theory.specs.Walk.{pushed};
ghost use Rattle.theory.specs.Order.{or_else, first_loop};
ghost use Rattle.theory.specs.Loops.{one_track};
ghost use Rattle.theory.specs.Memory.{down};
ghost use Rattle.order.specs.Search.{graph_of, rows, seen, flat, alone, Same, Kept, Entered, Left, Ready, Leads, Quiet};

use crate::search::Search;
use graph::{Graph, Row};
use marks::VisitMap;
use model::Direction;

impl<'a, G: Graph, M: VisitMap> Search<'a, G, M> {
    // Whether a node is discovered.
    pub(crate) fn has_seen(&self, a: u32) -> bool
        ensures { result ≡ seen self.now a }
    {
        self.marks.is_visited(a)
    }

    // One entry of x's row: a self-loop is noted, an unmarked far node is pushed, and a marked one without a rank is open.
    fn push_far(&mut self, x: u32, far: u32)
        requires inside { far < (graph_of self.old).nodes }
        requires room { self.old.depth < length self.old.stack.now }
        requires small { self.old.depth < 2 ^ 32 - 1 }
        ensures kept { Kept self.old self.new }
        ensures memory { self.new.stack.now ≡ (if seen self.old far then self.old.stack.now else slice_set self.old.stack.now self.old.depth far) }
        ensures depth { self.new.depth ≡ (if seen self.old far then self.old.depth else self.old.depth + 1) }
        ensures back { self.new.back ≡ (self.old.back || (seen self.old far && slice_index self.old.ranks.now far == 0)) }
        ensures looped { self.new.looped ≡ or_else self.old.looped (if x == far then Some x else None) }
    {
        if x == far {
            self.looped = self.looped.or(Some(x));
        }
        if self.marks.is_visited(far) {
            // 0 stands for none: lent memory holds plain numbers.
            self.back |= self.ranks[far as usize] == 0;
        } else {
            self.stack[self.depth as usize] = far;
            self.depth += 1;
        }
    }

    // Pushes the unmarked far nodes of x's row in row order. Where no entry led back, every marked one has a rank.
    fn push_row(&mut self, x: u32)
        requires room { self.old.depth + length (rows self.old x) ≤ length self.old.stack.now }
        requires small { self.old.depth + length (rows self.old x) < 2 ^ 32 }
        ensures kept { Kept self.old self.new }
        ensures pushed { down self.new.stack.now self.new.depth ≡ pushed (seen self.old) (rows self.old x) (down self.old.stack.now self.old.depth) }
        ensures back { self.new.back ≡ false → (self.old.back ≡ false) × Quiet (seen self.old) self.old.ranks.now (rows self.old x) }
        ensures looped { self.new.looped ≡ or_else self.old.looped (first_loop (rows self.old) (x ∷ [])) }
    {
        for (_, _, far) in Row::new(self.graph, Direction::Outgoing, x) {
            self.push_far(x, far);
        }
    }

    // Lists x unless it has a rank, which it then has.
    fn finish(&mut self, x: u32)
        requires inside { x < (graph_of self.old).nodes }
        requires room { slice_index self.old.ranks.now x ≡ 0 → self.old.count < length self.old.list.now }
        requires small { self.old.count < 65536 }
        ensures ranks { self.new.ranks.now ≡ (if nat_eq (slice_index self.old.ranks.now x) 0 then slice_set self.old.ranks.now x (self.old.count + 1) else self.old.ranks.now) }
        ensures list { self.new.list.now ≡ (if nat_eq (slice_index self.old.ranks.now x) 0 then slice_set self.old.list.now self.old.count x else self.old.list.now) }
        ensures count { self.new.count ≡ (if nat_eq (slice_index self.old.ranks.now x) 0 then self.old.count + 1 else self.old.count) }
        ensures rest { (self.new.graph ≡ self.old.graph) × (self.new.marks ≡ self.old.marks) × (self.new.stack.now ≡ self.old.stack.now) × (self.new.depth ≡ self.old.depth) × (self.new.back ≡ self.old.back) × (self.new.looped ≡ self.old.looped) }
    {
        // 0 stands for none, as in `push_far`.
        if self.ranks[x as usize] == 0 {
            self.list[self.count as usize] = x;
            self.count += 1;
            self.ranks[x as usize] = self.count;
        }
    }

    // Puts a node that is not marked on the empty stack.
    pub(crate) fn begin(&mut self, a: u32)
        requires ready { Ready self.old }
        requires empty { self.old.depth ≡ 0 }
        requires inside { a < (graph_of self.old).nodes }
        requires new { seen self.old a ≡ false }
        ensures alone { flat self.new ≡ alone a (flat self.old) }
        ensures ready { Ready self.new }
        ensures same { Same self.old self.new }
    {
        self.stack[0] = a;
        self.depth = 1;
    }

    // The top x is met for the first time: it is marked, and its row pushed.
    fn enter(&mut self, x: u32)
        requires inside { x < (graph_of self.old).nodes }
        requires room { self.old.depth + length (rows self.old x) ≤ length self.old.stack.now }
        requires small { self.old.depth + length (rows self.old x) < 2 ^ 32 }
        ensures { Entered x self.old self.new }
    {
        self.marks.visit(x);
        self.push_row(x);
    }

    // The top x is met again: it is taken off, and finished unless it was.
    fn leave(&mut self, x: u32)
        requires some { 0 < self.old.depth }
        requires inside { x < (graph_of self.old).nodes }
        requires room { slice_index self.old.ranks.now x ≡ 0 → self.old.count < length self.old.list.now }
        requires small { self.old.count < 65536 }
        ensures { Left x self.old self.new }
    {
        self.depth -= 1;
        self.finish(x);
    }

    // One turn: the top is met for the first time, or again. `Ready` is a clause and no field of the search: in the middle of a
    // turn it is false.
    pub(crate) fn turn(&mut self)
        requires some { 0 < self.old.depth }
        requires ready { Ready self.old }
        ensures turn { flat self.new ≡ one_track (rows self.old) (flat self.old) }
        ensures ready { Ready self.new }
        ensures same { Same self.old self.new }
    {
        let x = self.stack[(self.depth - 1) as usize];
        if self.has_seen(x) {
            self.leave(x);
        } else {
            self.enter(x);
        }
    }

    // Turns until the stack is empty: everything that was found from here is finished.
    pub(crate) fn settle(&mut self)
        requires ready { Ready self.old }
        ensures turns { Leads self.old self.new }
        ensures ready { Ready self.new }
        ensures empty { self.new.depth ≡ 0 }
    {
        while self.depth > 0 {
            self.turn();
        }
    }
}
