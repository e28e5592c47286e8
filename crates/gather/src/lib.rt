//! Gathers a blob from untrusted holders into a store, by one worker into a store of its own, or by many workers into one
//! shared store, each with its own list of holders; and returns it if its hash is the root.
#![tactic(auto)]

pub use b3par::{Gate, Open};
pub use blob::finish;
pub use completing::closing_round;
pub use crew::Crew;
pub use fault::FinishFault;
pub use holders::{ByteRange, Encoded, Form, Grain, Holder, HolderFault, Holding, Placed, Plain};
pub use judging::{finish_one, judge};
pub use one::run_one;
pub use parents::boundary_groups;
pub use peer::Peer;
pub use report::Report;
pub use runs::{run, run_bare};
pub use salvaging::salvage;
pub use shared::Shared;
pub use shelf::Shelf;
pub use worker::{Place, work, work_as};

mod asking;
mod blob;
mod completing;
mod crew;
mod fault;
mod judging;
mod masks;
mod meeting;
mod one;
mod parents;
mod peer;
mod report;
mod rounds;
mod runs;
mod salvaging;
mod shared;
mod shelf;
mod worker;
