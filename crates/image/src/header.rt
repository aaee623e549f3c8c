// The header: eight numbers of 32 bits, low byte first.
ghost use Rattle.std.specs.Prelude.{◌≡◌, ℕ, ◌+◌, ◌<◌, ◌≤◌, length, Some, None, MatchOption, MatchResult};
ghost use Rattle.format.specs.Format.{word};
ghost use Rattle.format.specs.Faults.{firstly, header_tests};
ghost use Rattle.image.specs.Reads.{Reads};
ghost use Rattle.image.specs.Told.{told};

use crate::fault::ImageFault;
use model::Kind;

pub const MAX_NODES: u32 = 65535;

pub const MAX_EDGES: u32 = 262144;

// The byte offsets of one direction's row tables.
#[derive(Clone, Copy)]
pub struct RowOffsets {
    pub starts: u32,
    pub entries: u32,
}

// Kind and counts, and the byte offsets of the five tables.
#[derive(Clone, Copy)]
pub struct Header {
    pub kind: Kind,
    pub nodes: u32,
    pub edges: u32,
    pub ends: u32,
    pub outgoing: RowOffsets,
    pub incoming: RowOffsets,
}

// A header, and how many entries each of the two entry tables holds.
#[derive(Clone, Copy)]
pub struct Layout {
    pub header: Header,
    pub entries: u32,
}

// The number at an offset.
pub(crate) fn read(bytes: &[u8], at: usize) -> u32
    requires { at + 4 ≤ length bytes.now }
    ensures { result ≡ word bytes.now at }
{
    u32::from_le_bytes([bytes[at], bytes[at + 1], bytes[at + 2], bytes[at + 3]])
}

// The number at the front of the bytes, and the bytes after it.
fn take_number(bytes: &[u8]) -> Option<(u32, &[u8])>
    ensures { MatchOption result (length bytes.now < 4) (λ t. (length bytes.now ≡ 4 + length t.1.now) × (t.0 ≡ word bytes.now 0) × ((k : ℕ) → word t.1.now k ≡ word bytes.now (4 + k))) }
{
    let [a, b, c, d, rest @ ..] = bytes else {
        return None;
    };
    Some((u32::from_le_bytes([*a, *b, *c, *d]), rest))
}

// Two such numbers as the offsets of a direction's row tables.
fn take_offsets(bytes: &[u8]) -> Option<(RowOffsets, &[u8])>
    ensures { MatchOption result (length bytes.now < 8) (λ t. (length bytes.now ≡ 8 + length t.1.now) × (t.0.starts ≡ word bytes.now 0) × (t.0.entries ≡ word bytes.now 4) × ((k : ℕ) → word t.1.now k ≡ word bytes.now (8 + k))) }
{
    let (starts, rest) = take_number(bytes)?;
    let (entries, rest) = take_number(rest)?;
    Some((RowOffsets { starts, entries }, rest))
}

// The header's numbers as they stand in the bytes. A type of its own: in a `Header` the kind is a `Kind`, and one struct with the
// kind's type as a parameter would be public and no shorter.
#[derive(Clone, Copy)]
struct Numbers {
    kind: u32,
    nodes: u32,
    edges: u32,
    ends: u32,
    outgoing: RowOffsets,
    incoming: RowOffsets,
}

fn read_numbers(bytes: &[u8]) -> Option<Numbers>
    ensures { MatchOption result (length bytes.now < 32) (λ t. (32 ≤ length bytes.now) × (t.kind ≡ word bytes.now 0) × (t.nodes ≡ word bytes.now 4) × (t.edges ≡ word bytes.now 8) × (t.ends ≡ word bytes.now 12) × (t.outgoing.starts ≡ word bytes.now 16) × (t.outgoing.entries ≡ word bytes.now 20) × (t.incoming.starts ≡ word bytes.now 24) × (t.incoming.entries ≡ word bytes.now 28)) }
{
    let (kind, rest) = take_number(bytes)?;
    let (nodes, rest) = take_number(rest)?;
    let (edges, rest) = take_number(rest)?;
    let (ends, rest) = take_number(rest)?;
    let (outgoing, rest) = take_offsets(rest)?;
    let (incoming, _) = take_offsets(rest)?;
    Some(Numbers {
        kind,
        nodes,
        edges,
        ends,
        outgoing,
        incoming,
    })
}

// The tests 1 to 3: length, kind, counts.
pub fn read_header(bytes: &[u8]) -> Result<Header, ImageFault>
    ensures { MatchResult result (λ h. Reads bytes.now h × (firstly (header_tests bytes.now) ≡ None)) (λ f. firstly (header_tests bytes.now) ≡ Some (told f)) }
{
    let numbers = read_numbers(bytes).ok_or_else(|| ImageFault::Short(bytes.len() as u32))?;
    let kind = Kind::try_from(numbers.kind).map_err(|_| ImageFault::Kind(0))?;
    if numbers.nodes > MAX_NODES {
        return Err(ImageFault::Limit(4));
    }
    if numbers.edges > MAX_EDGES {
        return Err(ImageFault::Limit(8));
    }
    Ok(Header {
        kind,
        nodes: numbers.nodes,
        edges: numbers.edges,
        ends: numbers.ends,
        outgoing: numbers.outgoing,
        incoming: numbers.incoming,
    })
}
