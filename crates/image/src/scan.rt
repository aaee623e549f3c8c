// One pass over each table: how many self-loops there are, and which field is the first at fault.
ghost use Rattle.std.specs.Prelude.{◌≡◌, ◌+◌, ◌-◌, ◌<◌, ◌≤◌, ◌&&◌, nat_lt};
ghost use Rattle.format.specs.Format.{word, is_due, loops, total};
ghost use Rattle.format.specs.Faults.{start_ok, bad_end, bad_start, bad_entry};
ghost use Rattle.image.specs.Cards.{bytes_of, tables_of, bad_in_row};

use crate::card::Card;
use crate::read::is_due;
use crate::rows::Rows;
use crate::started::Started;
use model::Direction;

impl<'a> Card<'a> {
    // How many edges have two equal ends.
    pub(crate) fn count_loops(&self) -> u32
        ensures { result ≡ loops (tables_of self.now) 0 (word (bytes_of self.now) 8) }
    {
        // A sum of ones, which is one loop: the count of a filter is a loop inside a loop, and slower.
        let loops = |e| {
            let (tail, head) = self.ends_at(e);
            u32::from(tail == head)
        };
        (0..self.header.edges).map(loops).sum()
    }

    // The first end that is no node.
    pub(crate) fn find_bad_end(&self) -> Option<u32>
        ensures { result ≡ bad_end (tables_of self.now) }
    {
        (0..2 * self.header.edges).find(|j| self.end_at(*j) >= self.header.nodes)
    }
}

impl<'a> Rows<'a> {
    // Whether the start number j is as it must be.
    fn start_fits(&self, direction: Direction, j: u32) -> bool
        requires { j ≤ word (bytes_of self.now.card) 4 }
        ensures { result ≡ start_ok ((tables_of self.now.card).start direction) (word (bytes_of self.now.card) 4) (total (tables_of self.now.card)) j }
    {
        let s = self.start_at(direction, j);
        if j == 0 {
            if s != 0 {
                return false;
            }
        } else {
            let before = self.start_at(direction, j - 1);
            if before > s {
                return false;
            }
        }
        s <= self.entries && (j != self.card.header.nodes || s == self.entries)
    }

    // The first start at fault.
    pub(crate) fn find_bad_start(&self, direction: Direction) -> Option<u32>
        ensures { result ≡ bad_start (tables_of self.now.card) direction }
    {
        // The last start apart, so that the loop does not ask of each whether it is the last.
        let last = self.card.header.nodes;
        let found = (0..last).find(|j| !self.start_fits(direction, *j));
        if found.is_none() && !self.start_fits(direction, last) {
            return Some(last);
        }
        found
    }
}

impl<'a> Started<'a> {
    // Where the row of a begins and ends in its entry table. The row question of an image reads the same two numbers, and
    // knows more of them.
    fn bounds(&self, a: u32) -> (u32, u32)
        requires { a < word (bytes_of self.now.rows.card) 4 }
        ensures { (result.0 ≡ (tables_of self.now.rows.card).start self.now.direction a) × (result.1 ≡ (tables_of self.now.rows.card).start self.now.direction (a + 1)) × (result.1 ≤ total (tables_of self.now.rows.card)) }
    {
        let low = self.rows.start_at(self.direction, a);
        let high = self.rows.start_at(self.direction, a + 1);
        (low, high)
    }

    // Whether e is an edge that is due in the row of a.
    fn is_due_edge(&self, a: u32, e: u32) -> bool
        ensures { result ≡ (nat_lt e (word (bytes_of self.now.rows.card) 8) && is_due (tables_of self.now.rows.card) self.now.direction a e) }
    {
        let card = &self.rows.card;
        if e >= card.header.edges {
            return false;
        }
        let (tail, head) = card.ends_at(e);
        let kind = card.kind();
        is_due(kind, self.direction, tail, head, a)
    }

    // Whether the entry number i, which is not the first of the row of a, is as it must be.
    fn entry_fits(&self, a: u32, i: u32) -> bool
        requires { (i < total (tables_of self.now.rows.card)) × (0 < i) }
        ensures { result ≡ (nat_lt ((tables_of self.now.rows.card).entry self.now.direction i) (word (bytes_of self.now.rows.card) 8) && is_due (tables_of self.now.rows.card) self.now.direction a ((tables_of self.now.rows.card).entry self.now.direction i) && nat_lt ((tables_of self.now.rows.card).entry self.now.direction (i - 1)) ((tables_of self.now.rows.card).entry self.now.direction i)) }
    {
        let e = self.rows.entry_at(self.direction, i);
        if !self.is_due_edge(a, e) {
            return false;
        }
        let before = self.rows.entry_at(self.direction, i - 1);
        before < e
    }

    // The first entry at fault of the row of a. The row's first entry, which has none before it, stands apart, so that the
    // loop asks the same of each of the others.
    fn find_in_row(&self, a: u32) -> Option<u32>
        requires { a < word (bytes_of self.now.rows.card) 4 }
        ensures { result ≡ bad_in_row (tables_of self.now.rows.card) self.now.direction a }
    {
        let (low, high) = self.bounds(a);
        if low >= high {
            return None;
        }
        let first = self.rows.entry_at(self.direction, low);
        if !self.is_due_edge(a, first) {
            return Some(low);
        }
        (low + 1..high).find(|i| !self.entry_fits(a, *i))
    }

    // The first entry at fault.
    pub(crate) fn find_bad_entry(&self) -> Option<u32>
        ensures { result ≡ bad_entry (tables_of self.now.rows.card) self.now.direction }
    {
        // A copy, so that the loop has its numbers at hand and does not read them anew in each row.
        let started = *self;
        (0..self.rows.card.header.nodes).find_map(|a| started.find_in_row(a))
    }
}
