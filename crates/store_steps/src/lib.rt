//! The words of a store that many threads share, the rule that they and the seats' knowledge obey, and one call
//! for each atomic step. A step is made with a grip, which is a seat's hold on these words.
#![tactic(auto)]

pub use fault::NewFault;
pub use grip::Grip;
pub use items::{ChunkKind, Item, ParentKind};
pub use law::{
    joined_seats_are_renamed, parents_leave_the_machine, side_steps_stay, steps_are_the_machines,
};
pub use words::Words;

mod fault;
mod grip;
mod items;
mod joins;
mod law;
mod lengths;
mod places;
mod plays;
mod rule;
mod words;
mod zeros;
