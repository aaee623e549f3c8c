// The tests of an image, in their order.
ghost use Rattle.std.specs.Prelude.{◌≡◌, ℕ, ◌+◌, ◌*◌, ◌<◌, ◌^◌, true, false, Some, None, MatchResult};
ghost use Rattle.std.specs.Option.{ForSome};
ghost use Rattle.format.specs.Format.{word, total, starts_field, entries_field};
ghost use Rattle.format.specs.Faults.{fits, test, bad_end, bad_start, bad_entry, in_table, firstly, header_tests, room_tests, layout_tests, table_tests, fault};
ghost use Rattle.image.specs.Cards.{bytes_of, tables_of};
ghost use Rattle.image.specs.Reads.{Reads, Measures};
ghost use Rattle.image.specs.Told.{told};

use crate::card::Card;
use crate::fault::ImageFault;
use crate::header::{Header, Layout, read_header};
use crate::rows::Rows;
use crate::started::Started;
use model::{Direction, Kind};

// Whether a table lies inside the bytes and below 2^32; if not, the header's field of its offset is at fault.
fn check_table(bytes: &[u8], field: u32, offset: u32, size: u32) -> Result<(), ImageFault>
    ensures { MatchResult result (λ _. fits bytes.now offset size ≡ true) (λ f. (fits bytes.now offset size ≡ false) × (told f ≡ (4, field))) }
{
    let end = offset as usize + size as usize;
    if end <= bytes.len() && end <= 4294967296 {
        Ok(())
    } else {
        Err(ImageFault::Table(field))
    }
}

impl<'a> Card<'a> {
    // D, how many entries each entry table holds.
    fn count_due(&self) -> u32
        ensures { result ≡ total (tables_of self.now) }
    {
        let edges = self.header.edges;
        match self.kind() {
            Kind::OneWay => edges,
            Kind::TwoWay => 2 * edges - self.count_loops(),
        }
    }
}

// The tests 4.
fn check_room<'a>(bytes: &'a [u8], header: Header) -> Result<Rows<'a>, ImageFault>
    requires { Reads bytes.now header × (firstly (header_tests bytes.now) ≡ None) }
    ensures { MatchResult result (λ rows. (bytes_of rows.card ≡ bytes.now) × (rows.card.header ≡ header) × (firstly (room_tests bytes.now) ≡ None)) (λ f. firstly (room_tests bytes.now) ≡ Some (told f)) }
{
    check_table(bytes, 12, header.ends, 8 * header.edges)?;
    let card = Card { bytes, header };
    let entries = card.count_due();
    let starts_size = 4 * (header.nodes + 1);
    check_table(bytes, 16, header.outgoing.starts, starts_size)?;
    check_table(bytes, 20, header.outgoing.entries, 4 * entries)?;
    check_table(bytes, 24, header.incoming.starts, starts_size)?;
    check_table(bytes, 28, header.incoming.entries, 4 * entries)?;
    Ok(Rows { card, entries })
}

// What was found in a table of numbers as a fault at its byte.
fn fault_at<F: FnOnce(u32) -> ImageFault>(
    found: Option<u32>,
    base: u32,
    fault: F,
) -> Result<(), ImageFault>
    requires callable { F.IsAlwaysCallable fault }
    requires inside { ForSome found (λ j. base + 4 * j < 2 ^ 32) }
    ensures { MatchResult result (λ _. found ≡ None) (λ f. (j : ℕ) × (found ≡ Some j) × F.post fault (base + 4 * j) f) }
{
    match found {
        Some(j) => Err(fault(base + 4 * j)),
        None => Ok(()),
    }
}

impl<'a> Rows<'a> {
    fn check_ends(&self) -> Result<(), ImageFault>
        ensures { MatchResult result (λ _. bad_end (tables_of self.now.card) ≡ None) (λ f. in_table 5 (word (bytes_of self.now.card) 12) (bad_end (tables_of self.now.card)) ≡ Some (told f)) }
    {
        let base = self.card.header.ends;
        fault_at(self.card.find_bad_end(), base, ImageFault::End)
    }

    // The rows of a direction whose starts are as they must be.
    fn check_starts(&self, direction: Direction) -> Result<Started<'a>, ImageFault>
        ensures { MatchResult result (λ s. (s.rows ≡ self.now) × (s.direction ≡ direction) × (bad_start (tables_of self.now.card) direction ≡ None)) (λ f. in_table 6 (word (bytes_of self.now.card) (starts_field direction)) (bad_start (tables_of self.now.card) direction) ≡ Some (told f)) }
    {
        let base = self.card.offsets(direction).starts;
        fault_at(self.find_bad_start(direction), base, ImageFault::Start)?;
        Ok(Started {
            rows: *self,
            direction,
        })
    }

    // The tests 5 to 7.
    fn check_tables(&self) -> Result<(), ImageFault>
        ensures { MatchResult result (λ _. firstly (table_tests (bytes_of self.now.card)) ≡ None) (λ f. firstly (table_tests (bytes_of self.now.card)) ≡ Some (told f)) }
    {
        self.check_ends()?;
        let outgoing = self.check_starts(Direction::Outgoing)?;
        let incoming = self.check_starts(Direction::Incoming)?;
        outgoing.check_entries()?;
        incoming.check_entries()
    }
}

impl<'a> Started<'a> {
    fn check_entries(&self) -> Result<(), ImageFault>
        ensures { MatchResult result (λ _. bad_entry (tables_of self.now.rows.card) self.now.direction ≡ None) (λ f. in_table 7 (word (bytes_of self.now.rows.card) (entries_field self.now.direction)) (bad_entry (tables_of self.now.rows.card) self.now.direction) ≡ Some (told f)) }
    {
        let base = self.rows.card.offsets(self.direction).entries;
        fault_at(self.find_bad_entry(), base, ImageFault::Entry)
    }
}

// The tests 1 to 4: the header, and the room for the tables.
fn lay_out<'a>(bytes: &'a [u8]) -> Result<Rows<'a>, ImageFault>
    ensures { MatchResult result (λ rows. (bytes_of rows.card ≡ bytes.now) × (firstly (layout_tests bytes.now) ≡ None)) (λ f. firstly (layout_tests bytes.now) ≡ Some (told f)) }
{
    let header = read_header(bytes)?;
    check_room(bytes, header)
}

// The tests 1 to 4, and what they read.
pub fn read_layout(bytes: &[u8]) -> Result<Layout, ImageFault>
    ensures { MatchResult result (λ l. Measures bytes.now l × (firstly (layout_tests bytes.now) ≡ None)) (λ f. firstly (layout_tests bytes.now) ≡ Some (told f)) }
{
    let rows = lay_out(bytes)?;
    Ok(Layout {
        header: rows.card.header,
        entries: rows.entries,
    })
}

// All tests: the tables of an image without a fault, or the first fault.
pub(crate) fn check<'a>(bytes: &'a [u8]) -> Result<Rows<'a>, ImageFault>
    ensures { MatchResult result (λ rows. (bytes_of rows.card ≡ bytes.now) × (fault bytes.now ≡ None)) (λ f. fault bytes.now ≡ Some (told f)) }
{
    let rows = lay_out(bytes)?;
    rows.check_tables()?;
    Ok(rows)
}
