//! The plan of a fetch: which holder is asked for which chunks of a blob, and when.
#![tactic(auto)]

pub use law::{
    blame_is_exact, calls_are_a_history, counted_once, ends, never_stuck, no_waste, one_is_enough,
};
pub use plan::Plan;
pub use policy::{EndFault, Next, Outcome, Policy, REQUEST_CHUNKS};

mod holder;
mod law;
mod plan;
mod policy;
mod runs;
mod sets;
