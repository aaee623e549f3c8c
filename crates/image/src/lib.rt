// The card image: `open` accepts exactly the well-formed images, and an accepted image is a graph.
#![tactic(auto)]

mod card;
mod check;
mod fault;
mod header;
mod opened;
mod read;
mod rows;
mod scan;
mod started;

ghost use Rattle.std.specs.Prelude.{◌≡◌, MatchResult};
ghost use Rattle.model.specs.declared.Kind.TheVariants.{OneWay};
ghost use Rattle.format.specs.Faults.{fault};
ghost use Rattle.format.proofs.Graphs.{accepted_graph};
ghost use Rattle.image.specs.Cards.{bytes_of};
ghost use Rattle.image.specs.Means.{means, Accepted, Opened, Refused};
ghost use Rattle.image.specs.Reads.{Blank};
ghost use Rattle.image.specs.Told.{answered};

use card::Card;
use check::check;
pub use check::read_layout;
pub use fault::ImageFault;
use graph::Graph;
pub use header::{Header, Layout, MAX_EDGES, MAX_NODES, RowOffsets, read_header};
use model::{Direction, Kind};
pub use opened::Image;
pub use read::is_due;
use rows::Rows;

// 32 zero bytes are an image without nodes: all its tables lie in its header.
static BLANK: [u8; 32] = [0; 32];

// Their numbers are all 0, and they are accepted.
fn blank_bytes<'a>() -> &'a [u8]
    ensures { Blank result.now }
{
    &BLANK
}

impl<'a> Image<'a> {
    // An image without nodes, one-way.
    pub fn new() -> Image<'a>
        ensures kind { (means result).kind ≡ OneWay }
        ensures nodes { (means result).nodes ≡ 0 }
        ensures edges { (means result).edges ≡ 0 }
    {
        let none = RowOffsets {
            starts: 0,
            entries: 0,
        };
        let header = Header {
            kind: Kind::OneWay,
            nodes: 0,
            edges: 0,
            ends: 0,
            outgoing: none,
            incoming: none,
        };
        let bytes = blank_bytes::<'a>();
        let card = Card { bytes, header };
        let rows = Rows { card, entries: 0 };
        Image { rows }
    }
}

// All tests, and what they come to: an accepted image is well-formed and means a graph, a refused one is not well-formed.
fn accept<'a>(bytes: &'a [u8]) -> Result<Rows<'a>, ImageFault>
    ensures { MatchResult result (λ rows. (bytes_of rows.card ≡ bytes.now) × Accepted bytes.now) (λ f. Refused bytes.now f) }
{
    check(bytes)
}

// Fills the image from the bytes, or tells their first fault and leaves the image as it was.
pub fn open<'a>(image: &mut Image<'a>, bytes: &'a [u8]) -> Result<(), ImageFault>
    ensures { MatchResult result (λ _. Opened bytes.now image.new) (λ f. Refused bytes.now f × (image.new ≡ image.old)) }
{
    let rows = accept(bytes)?;
    *image = Image { rows };
    Ok(())
}

// The check as one number: 0, or the fault's number times 2^32 plus its offset. The crate `image_c` exports it.
pub fn card_image_check(bytes: &[u8]) -> u64
    ensures { result ≡ answered (fault bytes.now) }
{
    match check(bytes) {
        Ok(_) => 0,
        Err(fault) => u64::from(fault),
    }
}

impl<'a> Graph for Image<'a> {
    // part of what `open` promises: the graph that is asked here is the one that it speaks of
    ghost model = { λ g. means g };

    ghost lawful = { λ g. accepted_graph g.rows.card.bytes.now g.accepted };

    fn kind(&self) -> Kind {
        self.rows.card.kind()
    }

    fn node_bound(&self) -> u32 {
        self.rows.card.header.nodes
    }

    fn edge_bound(&self) -> u32 {
        self.rows.card.header.edges
    }

    fn contains_node(&self, a: u32) -> bool {
        a < self.rows.card.header.nodes
    }

    fn edge_endpoints(&self, e: u32) -> Option<(u32, u32)> {
        if e < self.edge_bound() {
            Some(self.rows.card.ends_at(e))
        } else {
            None
        }
    }

    fn row_entry(&self, direction: Direction, a: u32, place: u32) -> Option<(u32, u32, u32)> {
        if a >= self.node_bound() {
            return None;
        }
        // As in `bounds` of the scan, which says of a row that it ends in its table: here all of an accepted image is known.
        let low = self.rows.start_at(direction, a);
        let high = self.rows.start_at(direction, a + 1);
        if place >= high - low {
            return None;
        }
        let e = self.rows.entry_in_row(direction, low, place);
        Some((place, e, self.rows.card.far_at(direction, a, e)))
    }
}
