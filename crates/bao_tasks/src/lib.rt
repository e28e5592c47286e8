//! The program's tasks over files: gather a blob from untrusted files, say what they lack, and run a schedule.
#![tactic(auto)]

pub use file_fate::Fate;
pub use gathered_fault::GatheredFault;
pub use gathering::{Gathering, gather_beside_on, gather_on};
pub use given::Given;
pub use holders::{Form, Grain};
pub use listing::{list_parts, write_parts};
pub use missing::{Lack, MissingParts, Span, lack_of};
pub use notes::Notes;
pub use replaying::{replay_on, replay_text};
pub use rerun_fault::RerunFault;
pub use spot::{Spot, spot_in_outboard, spot_in_slice};
pub use worth::{Worth, worth_of};

mod file_fate;
mod gathered_fault;
mod gathering;
mod given;
mod listing;
mod missing;
mod notes;
mod replaying;
mod rerun_fault;
mod spot;
mod worth;
mod written;
