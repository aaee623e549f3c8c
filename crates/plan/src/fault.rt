// Why there is no plan: the image is refused, or lent memory is short.
ghost use Rattle.std.specs.Prelude.{◌≡◌};
ghost use Rattle.plan.specs.Faults.{plan_number, plan_offset};
ghost use Rattle.plan.specs.declared.fault.PlanFault.TheVariants.{Image as OfImage, Memory as OfMemory};

use image::ImageFault;
use workspace::Refusal;

#[derive(Clone, Copy, PartialEq, Eq, Debug)]
pub enum PlanFault {
    Image(ImageFault),
    Memory(Refusal),
}

// By hand: clauses name what a `?` makes.
impl From<ImageFault> for PlanFault {
    ghost from_gives = { λ f r. r ≡ OfImage f };

    fn from(fault: ImageFault) -> PlanFault {
        PlanFault::Image(fault)
    }
}

impl From<Refusal> for PlanFault {
    ghost from_gives = { λ k r. r ≡ OfMemory k };

    fn from(refusal: Refusal) -> PlanFault {
        PlanFault::Memory(refusal)
    }
}

impl PlanFault {
    // The number of the fault that is wrapped.
    pub fn number(self) -> u8
        ensures { result ≡ plan_number self }
    {
        match self {
            PlanFault::Image(fault) => fault.number(),
            PlanFault::Memory(refusal) => refusal.number(),
        }
    }

    // The byte offset of the first field at fault, where the image is refused.
    pub fn offset(self) -> Option<u32>
        ensures { result ≡ plan_offset self }
    {
        match self {
            PlanFault::Image(fault) => Some(fault.offset()),
            PlanFault::Memory(_) => None,
        }
    }
}
