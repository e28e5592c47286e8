//! The single-threaded store of a blob's chunks: its state, its events, their histories, and what a seat knows.
#![tactic(auto)]

pub use bao_check::GROUP_BYTES;
pub use bytes::put_bytes;
pub use fault::{BadCapacity, Missing, ReplayFault, ServeFault, StepFault, StoreFault};
pub use history::{Call, Event, Serving, Settling, Storing};
pub use holders::{Fixed, Piece};
pub use law::{
    claims_apart, held_binds, held_is_committed, held_lasts, join_keeps, names_stay_in_order,
    parents_last, read_means, runs_are_legal, served_binds, state_determines,
};
pub use masks::{CELL_WORDS, GROUP_LEN, PARENT_WORDS, has_bit, mask_below, with_bit};
pub use micro::{MicroStep, ReadBytes, Reply};
pub use schedule::{ScheduleRun, replay};
pub use store::{MAX_BASE, MAX_CAPACITY, Store};
pub use view::{Boundaries, Named, SeatView, StoredWord};

mod bytes;
mod fault;
mod history;
mod law;
mod masks;
mod micro;
mod parents;
mod reading;
mod schedule;
mod slot;
mod store;
mod view;
mod written;
