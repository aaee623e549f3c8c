// The flush plan: in which order the changed blocks of a card are written.
#![tactic(auto)]

mod fault;
mod flush;

ghost use Rattle.plan.specs.Plans.{PlansLaw};

pub use fault::PlanFault;
pub use flush::flush_plan;

// The order of the changed blocks is a plan, or the named block waits for itself.
pub fn plans_law()
    ensures { PlansLaw }
{}
