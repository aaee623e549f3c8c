// How much memory is lent.
ghost use Rattle.std.specs.Prelude.{◌≡◌, length};
ghost use Rattle.workspace.specs.Refusals.{sizes};

use marks::VisitMap;

// The sizes of the lent memory: stack and table by entries, marks by capacity.
#[derive(Clone, Copy)]
pub(crate) struct Sizes {
    pub(crate) stack: usize,
    pub(crate) table: usize,
    pub(crate) marks: u32,
}

impl Sizes {
    pub(crate) fn of<M: VisitMap>(stack: &[u32], table: &[u32], marks: &M) -> Sizes
        ensures { result ≡ sizes (length stack.now) (length table.now) (M.VisitMap.limit marks.now) }
    {
        Sizes {
            stack: stack.len(),
            table: table.len(),
            marks: marks.capacity(),
        }
    }
}
