//! Bao encodings checked: combined, outboard and slices, in memory, from a reader or while they arrive (Bao
//! specification).
//!
//! An accepted slice is a `Checked`, one with the last chunk of its claimed length is a `Tail`, and an accepted
//! outboard encoding is an `Outline`.
#![tactic(auto)]

pub use checked::Checked;
pub use checking::{Checking, Decoded};
pub use checks::{bare_fits, check_bare, check_combined, check_outboard, check_slice};
pub use fault::CheckFault;
pub use feed::OutboardFeed;
pub use law::{
    accepted_binds, bare_accepted, certificate_binds, nodes_make_slice, parent_binds,
    written_accepted,
};
pub use outline::Outline;
pub use parent::{GROUP_BYTES, GROUP_LEN};
pub use read::{check_stream, read_checked, read_piece};
pub use tail::Tail;

mod asked;
mod bare;
mod checked;
mod checking;
mod checks;
mod decoding;
mod fault;
mod feed;
mod feed_parents;
mod form;
mod known;
mod law;
mod leaves;
mod locate;
mod outline;
mod parent;
mod part;
mod read;
mod stream;
mod tail;
mod text_lanes;
mod waiting;
mod walk;
mod whole;
