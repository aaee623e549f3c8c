// Why the program ends with status 1.
use image::ImageFault;
use plan::PlanFault;
use std::alloc::AllocError;
use std::io;
use workspace::Refusal;

#[derive(Drop)]
pub enum Failure {
    Usage,
    Card(ImageFault),
    // A call over the card. Memory is as large as the card asks for, so none is.
    Call(Refusal),
    // The changed blocks of a one-way card have no order: the block is on a cycle.
    Cycle(u32),
    NoMemory,
    // Told already, or the output cannot be written.
    Told,
}

// By hand: each says what the program makes of an error, and most split it or let it go.
impl From<ImageFault> for Failure {
    fn from(fault: ImageFault) -> Failure {
        Failure::Card(fault)
    }
}

impl From<Refusal> for Failure {
    fn from(refusal: Refusal) -> Failure {
        Failure::Call(refusal)
    }
}

impl From<PlanFault> for Failure {
    fn from(fault: PlanFault) -> Failure {
        match fault {
            PlanFault::Image(fault) => Failure::Card(fault),
            PlanFault::Memory(refusal) => Failure::Call(refusal),
        }
    }
}

impl From<AllocError> for Failure {
    fn from(_error: AllocError) -> Failure {
        Failure::NoMemory
    }
}

impl From<io::Error> for Failure {
    fn from(_error: io::Error) -> Failure {
        Failure::Told
    }
}

// The rule that a refused card breaks, in the words of those who make cards and not of the library.
pub fn rule(fault: ImageFault) -> &'static str {
    match fault {
        ImageFault::Short(_) => "a card has at least the 32 bytes of its header",
        ImageFault::Kind(_) => "the kind is 0 (one-way) or 1 (two-way)",
        ImageFault::Limit(4) => "a card has at most 65,535 blocks",
        ImageFault::Limit(_) => "a card has at most 262,144 links",
        ImageFault::Table(_) => "each table lies inside the card",
        ImageFault::End(_) => "each end of a link is a block of the card",
        ImageFault::Start(_) =>
            "the starts of the rows begin with 0, never fall, and end with the number of entries due",
        ImageFault::Entry(_) => "each entry of a row is a link due in that row, in ascending order",
    }
}
