ghost use Rattle.std.specs.Prelude.{◌≡◌};

// There is no order: the node is on a cycle.
#[derive(Clone, Copy, PartialEq, Eq, Debug)]
pub struct Cycle<N>(pub(crate) N);

impl<N: Copy> Cycle<N> {
    // The node that is on a cycle.
    pub fn node_id(&self) -> N
        ensures { result ≡ self.now.0 }
    {
        self.0
    }
}
