//! Binds accepted slices to a blob: either they agree, or two compression inputs collide.
//!
//! Nothing here allocates.
#![tactic(auto)]

pub use apart::audit_parents;
pub use bind::{audit, audit_all};
pub use verdict::{AuditFault, ParentVerdict, Verdict};

mod apart;
mod bind;
mod chunk_run;
mod chunks;
mod pair;
mod parents;
mod search;
mod verdict;
