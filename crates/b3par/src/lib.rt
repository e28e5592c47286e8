//! BLAKE3 hashes and Bao encodings on several threads, of bytes in memory or of a source that is read by
//! position, such as a file.
//!
//! The tree is cut into subtrees, which the workers of a pool steal. Hashing a source takes memory that doesn't
//! grow with its length.
#![tactic(auto)]

pub use encodings::{combined_source, outboard_source, slice_source};
pub use fault::{ParFault, ReadFault};
pub use gate::{Gate, Open};
pub use hashes::{Pooled, hash_pool, hash_pooled, hash_source};
pub use jobs::{JOB_CHUNKS, LEAST_RANGE_LEN, WORKERS};
pub use join::hash_join;
pub use pieces::{PIECE_LEN, ends_at, fill};
pub use source::Source;

mod encodings;
mod fault;
mod gate;
mod hashes;
mod jobs;
mod join;
mod pieces;
mod pool;
mod source;
mod subtree_text;
mod tree;
