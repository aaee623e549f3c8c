ghost use Rattle.std.specs.Prelude.{◌≡◌, ◌+◌, ◌*◌, ◌≤◌, IfSome, unwrap_or};
ghost use Rattle.std.proofs.Props.{props};
ghost use Rattle.model.specs.Model.{most_nodes, most_edges};

// What a workspace keeps beside its lent memory: the counts of its graph, and where a walk is open the length of its stack.
// The stack is lent anew with each call, as there is no heap, so its length stands here and not beside it.
#[derive(Clone, Copy)]
pub struct Workspace {
    pub(crate) nodes: u32,
    pub(crate) edges: u32,
    pub(crate) walk: Option<u32>,
    ghost few_nodes: { nodes ≤ most_nodes },
    ghost few_edges: { edges ≤ most_edges },
    ghost within: { IfSome walk (λ depth. depth ≤ nodes + 2 * edges + 1) } by { Prim.hlevel props },
}

impl Workspace {
    // How many entries the stack holds: none where no walk is open.
    pub fn depth(&self) -> u32
        ensures { result ≡ unwrap_or self.now.walk 0 }
    {
        self.walk.unwrap_or(0)
    }
}
