// The low-point search: from each node by its row to the nodes that are new, and back.
ghost use Rattle.std.specs.Prelude.{◌≡◌, ℕ, ◌+◌, ◌-◌, ◌*◌, ◌^◌, ◌<◌, ◌≤◌, length, Some, slice_index};
ghost use Rattle.model.specs.declared.Direction.TheVariants.{Outgoing};
ghost use Rattle.model.specs.declared.Kind.TheVariants.{TwoWay};
ghost use Rattle.model.specs.Model.{from};
ghost use Rattle.model.specs.Sets.{nothing};
ghost use Rattle.lowpoint.specs.Steps.{met, looked, entered, credited, popped, closed, went, stepped, Ready, LeadsTo, Clean, Between, rooting, Searched};

use graph::{Graph, Row};
use marks::VisitMap;
use model::Direction;
use workspace::zero_first;

// Stands for the edge above a root: lent memory holds plain numbers, and no edge has this one.
const NO_EDGE: u32 = 262144;

// A search of a two-way graph. There is no heap: the stack and four parts of one table are lent plain numbers.
#[derive(Drop)]
struct Search<'a, G: Graph, M: VisitMap> {
    graph: &'a G,
    // The cut nodes.
    marks: &'a mut M,
    // The open nodes, the latest last.
    stack: &'a mut [u32],
    // Of each node its discovery number, 0 before it has one.
    numbers: &'a mut [u32],
    // Of each node its low point.
    lows: &'a mut [u32],
    // Of each node the edge by which it was entered; of a closed one only if it is a bridge.
    arrivals: &'a mut [u32],
    // Of each node the next place of its row.
    cursors: &'a mut [u32],
    // How many nodes are open.
    depth: u32,
    // The next discovery number.
    clock: u32,
    // Whether the root has a child that is closed.
    branched: bool,
    ghost two: { (G.Graph.model graph.now).kind ≡ TwoWay },
    ghost fits: { (G.Graph.model graph.now).nodes ≤ M.VisitMap.limit marks.now },
    ghost deep: { (G.Graph.model graph.now).nodes < length stack.now },
    ghost numbers_fit: { length numbers.now ≡ (G.Graph.model graph.now).nodes },
    ghost lows_fit: { length lows.now ≡ (G.Graph.model graph.now).nodes },
    ghost arrivals_fit: { length arrivals.now ≡ (G.Graph.model graph.now).nodes },
    ghost cursors_fit: { length cursors.now ≡ (G.Graph.model graph.now).nodes },
}

impl<'a, G: Graph, M: VisitMap> Search<'a, G, M> {
    ghost use Rattle.cuts.specs.Shape.{model, memory, Keeps, Enterable, edge_number};

    // An entry of the row of a node with this low point, entered by the edge `above`: the low point then, or nothing
    // where it leads to a new node.
    fn meet(&self, above: u32, low: u32, edge: u32, far: u32) -> Option<u32>
        requires { far < (model self.now).nodes }
        ensures { result ≡ met self.now.numbers.now above low edge far }
    {
        if edge == above {
            return Some(low);
        }
        // 0 stands for none: lent memory holds plain numbers.
        match self.numbers[far as usize] {
            0 => None,
            number => Some(low.min(number)),
        }
    }

    // The rest of the row of an open node: its low point after back edges, and the first entry that leads to a new node.
    fn look_on(&self, x: u32) -> (u32, Option<(u32, u32, u32)>)
        requires { x < (model self.now).nodes }
        ensures { let a = memory self.now in result ≡ looked a.numbers (slice_index a.arrivals x) (slice_index a.lows x) (from ((model self.now).row Outgoing x) (slice_index a.cursors x)) }
    {
        let above = self.arrivals[x as usize];
        let mut low = self.lows[x as usize];
        let place = self.cursors[x as usize];
        for (place, edge, far) in Row::starting_at(self.graph, Direction::Outgoing, x, place) {
            match self.meet(above, low, edge, far) {
                Some(lower) => low = lower,
                None => return (low, Some((place, edge, far))),
            }
        }
        (low, None)
    }

    // Enters a new node, by an edge if it is no root: it gets the next discovery number, and is open.
    fn enter(&mut self, y: u32, by: Option<u32>)
        requires { Enterable self.old y }
        ensures memory { memory self.new ≡ entered (memory self.old) y (edge_number by) }
        ensures keeps { Keeps self.old self.new }
    {
        self.stack[self.depth as usize] = y;
        self.depth += 1;
        self.numbers[y as usize] = self.clock;
        self.lows[y as usize] = self.clock;
        self.arrivals[y as usize] = by.unwrap_or(NO_EDGE);
        self.cursors[y as usize] = 0;
        self.clock += 1;
    }

    // Gives the open node p the low point of a child that is closed, and marks p if that shows it to be a cut node:
    // a root by its second child, another node if the child's low point does not pass it.
    fn credit(&mut self, p: u32, low: u32)
        requires { p < (model self.old).nodes }
        ensures memory { memory self.new ≡ credited (memory self.old) p low }
        ensures keeps { Keeps self.old self.new }
    {
        if low < self.lows[p as usize] {
            self.lows[p as usize] = low;
        }
        if self.depth == 1 {
            if self.branched {
                self.marks.visit(p);
            }
            self.branched = true;
        } else if low >= self.numbers[p as usize] {
            self.marks.visit(p);
        }
    }

    // Takes the latest open node x off the stack: the edge by which it was entered is kept if it is a bridge.
    fn pop(&mut self, x: u32, low: u32)
        requires { (0 < self.old.depth) × (x < (model self.old).nodes) }
        ensures memory { memory self.new ≡ popped (memory self.old) x low }
        ensures keeps { Keeps self.old self.new }
    {
        self.depth -= 1;
        if low != self.numbers[x as usize] {
            self.arrivals[x as usize] = NO_EDGE;
        }
    }

    // Closes the latest open node x, and goes back to the one below it.
    fn close(&mut self, x: u32, low: u32)
        requires latest { (0 < self.old.depth) × (self.old.depth ≤ (model self.old).nodes) × (x < (model self.old).nodes) }
        requires under { 1 < self.old.depth → slice_index self.old.stack.now (self.old.depth - 2) < (model self.old).nodes }
        ensures memory { memory self.new ≡ closed (memory self.old) x low }
        ensures keeps { Keeps self.old self.new }
    {
        if self.depth == 1 {
            self.pop(x, low);
            return;
        }
        let p = self.stack[(self.depth - 2) as usize];
        self.pop(x, low);
        self.credit(p, low);
    }

    // Goes on from the open node x, with this low point, by an entry of its row to a new node.
    fn go_on(&mut self, x: u32, low: u32, entry: (u32, u32, u32))
        requires from { (x < (model self.old).nodes) × (entry.0 < 2 ^ 32 - 1) }
        requires far { Enterable self.old entry.2 }
        ensures memory { memory self.new ≡ went (memory self.old) x (low, Some entry) }
        ensures keeps { Keeps self.old self.new }
    {
        let (place, edge, far) = entry;
        self.lows[x as usize] = low;
        self.cursors[x as usize] = place + 1;
        self.enter(far, Some(edge));
    }

    // One step: from the latest open node to a new node, or back where its row has no more.
    fn step(&mut self)
        requires some { 0 < self.old.depth }
        requires ready { Ready (model self.old) (memory self.old) }
        ensures memory { memory self.new ≡ stepped (model self.old) (memory self.old) }
        ensures keeps { Keeps self.old self.new }
    {
        let x = self.stack[(self.depth - 1) as usize];
        let (low, next) = self.look_on(x);
        match next {
            Some(entry) => self.go_on(x, low, entry),
            None => self.close(x, low),
        }
    }

    // Steps until no node is open. Loops of `order` are alike but for their steps: a closure for the step would be longer.
    fn settle(&mut self)
        requires ready { Ready (model self.old) (memory self.old) }
        ensures leads { LeadsTo (model self.old) (memory self.old) (memory self.new) }
        ensures still { self.new.depth ≡ 0 }
        ensures keeps { Keeps self.old self.new }
    {
        while self.depth > 0 {
            self.step();
        }
    }

    // Enters a root.
    fn enter_root(&mut self, i: u32)
        requires { Enterable self.old i }
        ensures memory { memory self.new ≡ rooting (memory self.old) i }
        ensures keeps { Keeps self.old self.new }
    {
        self.branched = false;
        self.enter(i, None);
    }

    // The search from one more number; nothing is done where it is discovered before.
    fn search_from(&mut self, i: u32)
        requires inside { i < (model self.old).nodes }
        requires between { Between (model self.old) i (memory self.old) }
        ensures between { Between (model self.old) (i + 1) (memory self.new) }
        ensures keeps { Keeps self.old self.new }
    {
        // 0 stands for none, as in `meet`.
        if self.numbers[i as usize] != 0 {
            return;
        }
        self.enter_root(i);
        self.settle();
    }

    // The search from every number below N, ascending.
    fn search_all(&mut self)
        requires clean { Clean (model self.old) (memory self.old) }
        ensures searched { Searched (model self.old) self.new.arrivals.now (M.VisitMap.marked self.new.marks.now) }
        ensures keeps { Keeps self.old self.new }
    {
        for i in 0..self.graph.node_bound() {
            self.search_from(i);
        }
    }
}

// The search of a two-way graph over clear marks: it marks the cut nodes, and `arrivals` then holds for each node the
// bridge by which it was entered. What it asks of the lent parts is held by the fields of the search that it makes.
pub(crate) fn search_graph<'a, G: Graph, M: VisitMap>(
    graph: &'a G,
    marks: &'a mut M,
    stack: &'a mut [u32],
    arrivals: &'a mut [u32],
    others: &'a mut [u32],
)
    requires two { (G.Graph.model graph.now).kind ≡ TwoWay }
    requires clear { M.VisitMap.marked marks.old ≡ nothing }
    requires fits { (G.Graph.model graph.now).nodes ≤ M.VisitMap.limit marks.old }
    requires deep { (G.Graph.model graph.now).nodes < length stack.old }
    requires wide { (length arrivals.old ≡ (G.Graph.model graph.now).nodes) × (length others.old ≡ 3 * (G.Graph.model graph.now).nodes) }
    ensures searched { Searched (G.Graph.model graph.now) arrivals.new (M.VisitMap.marked marks.new) }
    ensures limit { M.VisitMap.limit marks.new ≡ M.VisitMap.limit marks.old }
{
    let nodes = graph.node_bound() as usize;
    let (numbers, rest) = others.split_at_mut(nodes);
    let (lows, cursors) = rest.split_at_mut(nodes);
    zero_first(numbers, nodes);
    let mut search = Search {
        graph,
        marks,
        stack,
        numbers,
        lows,
        arrivals,
        cursors,
        depth: 0,
        clock: 1,
        branched: false,
    };
    search.search_all();
}
