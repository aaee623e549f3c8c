// The largest card of the tests.
use model::Kind;
use std::alloc::{AllocError, Global};
use support::pack;

pub const MOST_BLOCKS: u32 = 65535;

const MOST_LINKS: u32 = 262144;

// The image of a one-way chain with as many blocks and links as a card can have: each block but the last has four links to the
// next one, and block 0 has twelve.
pub fn long_chain(heap: Global) -> Result<Vec<u8>, AllocError> {
    let mut links = Vec::new(heap);
    for e in 0..MOST_LINKS {
        let tail = e.saturating_sub(8) / 4;
        links.push((tail, tail + 1))?;
    }
    pack(heap, Kind::OneWay, MOST_BLOCKS, links.as_slice())
}
