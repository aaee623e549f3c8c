// The workspace: a depth-first walk over lent memory.
#![tactic(auto)]

mod calls;
mod record;
mod refusal;
mod sizes;
mod walk;

pub use calls::{check_empty, check_result, entries, zero_first};
pub use record::Workspace;
pub use refusal::Refusal;
