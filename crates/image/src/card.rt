ghost use Rattle.image.specs.Reads.{Reads, EdgeRoom};

use crate::header::Header;

// An image's bytes with its header, where the edge table lies inside the bytes.
#[derive(Clone, Copy)]
pub(crate) struct Card<'a> {
    pub(crate) bytes: &'a [u8],
    pub(crate) header: Header,
    ghost reads: { Reads bytes.now header },
    ghost room: { EdgeRoom bytes.now },
}
