// What the tables of an image hold. Each `requires` bounds an argument, as that of an index does, so no type can hold it.
ghost use Rattle.std.specs.Prelude.{◌≡◌, ◌+◌, ◌*◌, ◌<◌, ◌≤◌, true, Some};
ghost use Rattle.model.specs.Model.{due};
ghost use Rattle.format.specs.Format.{word, tail_of, head_of, starts_field, entries_field, total, far, is_due};
ghost use Rattle.image.specs.Cards.{bytes_of, tables_of};

use crate::card::Card;
use crate::header::{RowOffsets, read};
use crate::rows::Rows;
use model::{Direction, Kind};

// Whether an edge from tail to head is due in the row of a.
pub fn is_due(kind: Kind, direction: Direction, tail: u32, head: u32, a: u32) -> bool
    ensures { result ≡ due kind direction (Some (tail, head)) a }
{
    match (kind, direction) {
        (Kind::OneWay, Direction::Outgoing) => tail == a,
        (Kind::OneWay, Direction::Incoming) => head == a,
        (Kind::TwoWay, _) => tail == a || head == a,
    }
}

impl<'a> Card<'a> {
    pub(crate) fn kind(&self) -> Kind
        ensures { result ≡ (tables_of self.now).kind }
    {
        self.header.kind
    }

    // Where a direction's row tables lie.
    pub(crate) fn offsets(&self, direction: Direction) -> RowOffsets
        ensures { (result.starts ≡ word (bytes_of self.now) (starts_field direction)) × (result.entries ≡ word (bytes_of self.now) (entries_field direction)) }
    {
        match direction {
            Direction::Outgoing => self.header.outgoing,
            Direction::Incoming => self.header.incoming,
        }
    }

    // The stored end number j: tails have even numbers, heads odd ones.
    pub(crate) fn end_at(&self, j: u32) -> u32
        requires { j < 2 * word (bytes_of self.now) 8 }
        ensures { result ≡ (tables_of self.now).end j }
    {
        read(self.bytes, self.header.ends as usize + 4 * j as usize)
    }

    // An edge's tail and head.
    pub(crate) fn ends_at(&self, e: u32) -> (u32, u32)
        requires { e < word (bytes_of self.now) 8 }
        ensures { (result.0 ≡ tail_of (tables_of self.now) e) × (result.1 ≡ head_of (tables_of self.now) e) }
    {
        let tail = self.end_at(2 * e);
        let head = self.end_at(2 * e + 1);
        (tail, head)
    }

    // The far end of an edge due in the row of a: of a self-loop a itself. One-way the direction tells which end
    // that is, and two-way the place is computed, since a branch would go either way half of the time.
    pub(crate) fn far_at(&self, direction: Direction, a: u32, e: u32) -> u32
        requires known { e < word (bytes_of self.now) 8 }
        requires due { is_due (tables_of self.now) direction a e ≡ true }
        ensures { result ≡ far (tables_of self.now) a e }
    {
        let end = match (self.kind(), direction) {
            (Kind::OneWay, Direction::Outgoing) => 1,
            (Kind::OneWay, Direction::Incoming) => 0,
            (Kind::TwoWay, _) => u32::from(self.end_at(2 * e) == a),
        };
        self.end_at(2 * e + end)
    }
}

// A start, an entry and an end differ in their table, its bound and what is said of the number; what they share is `read`.
impl<'a> Rows<'a> {
    pub(crate) fn start_at(&self, direction: Direction, j: u32) -> u32
        requires { j ≤ word (bytes_of self.now.card) 4 }
        ensures { result ≡ (tables_of self.now.card).start direction j }
    {
        let base = self.card.offsets(direction).starts;
        read(self.card.bytes, base as usize + 4 * j as usize)
    }

    pub(crate) fn entry_at(&self, direction: Direction, i: u32) -> u32
        requires { i < total (tables_of self.now.card) }
        ensures { result ≡ (tables_of self.now.card).entry direction i }
    {
        let base = self.card.offsets(direction).entries;
        read(self.card.bytes, base as usize + 4 * i as usize)
    }

    // The entry at a place of the row that begins at low.
    pub(crate) fn entry_in_row(&self, direction: Direction, low: u32, place: u32) -> u32
        requires { low + place < total (tables_of self.now.card) }
        ensures { result ≡ (tables_of self.now.card).entry direction (low + place) }
    {
        self.entry_at(direction, low + place)
    }
}
