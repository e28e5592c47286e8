//! A store of one blob's chunks that many threads share, each with a seat of its own: its claims, and all that
//! it has seen.
#![tactic(auto)]

pub use assembly::Assembly;
pub use fault::{NoGroup, OtherRoot, ParentsFault, SplitFault};
pub use law::{calls_in_real_time, replies_are_the_stores};
pub use seat::Seat;
pub use store_core::{Missing, ServeFault, Settling};
pub use store_steps::NewFault;

mod assembly;
mod cell;
mod chunks;
mod committing;
mod fault;
mod groups;
mod items;
mod law;
mod masks;
mod nodes;
mod parents;
mod reading;
mod seat;
mod serving;
