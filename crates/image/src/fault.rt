// Why an image is refused.
ghost use Rattle.std.specs.Prelude.{◌≡◌, Some};
ghost use Rattle.image.specs.Told.{told, answered, told_text};

use std::fmt;

// Each fault holds the byte offset of the first field at fault; for an image too short that is its length.
#[derive(Clone, Copy, PartialEq, Eq, Debug)]
pub enum ImageFault {
    Short(u32),
    Kind(u32),
    Limit(u32),
    Table(u32),
    End(u32),
    Start(u32),
    Entry(u32),
}

impl ImageFault {
    // The refusal's number, 1 to 7. A match, since no cast takes an enum whose cases hold values.
    pub fn number(self) -> u8
        ensures { result ≡ (told self).0 }
    {
        match self {
            ImageFault::Short(_) => 1,
            ImageFault::Kind(_) => 2,
            ImageFault::Limit(_) => 3,
            ImageFault::Table(_) => 4,
            ImageFault::End(_) => 5,
            ImageFault::Start(_) => 6,
            ImageFault::Entry(_) => 7,
        }
    }

    // The byte offset of the first field at fault.
    pub fn offset(self) -> u32
        ensures { result ≡ (told self).1 }
    {
        match self {
            ImageFault::Short(at)
            | ImageFault::Kind(at)
            | ImageFault::Limit(at)
            | ImageFault::Table(at)
            | ImageFault::End(at)
            | ImageFault::Start(at)
            | ImageFault::Entry(at) => at,
        }
    }
}

// The number times 2^32 plus the offset.
impl From<ImageFault> for u64 {
    ghost from_gives = { λ fault n. n ≡ answered (Some (told fault)) };

    fn from(fault: ImageFault) -> u64 {
        u64::from(fault.number()) * 4294967296 + u64::from(fault.offset())
    }
}

impl fmt::Display for ImageFault {
    ghost output = { λ fault. Some (told_text (told fault)) };

    fn fmt<W: fmt::Write>(&self, f: &mut fmt::Formatter<W>) -> fmt::Result {
        let number = self.number();
        let at = self.offset();
        write!(f, "refused {number} at byte {at}")
    }
}
