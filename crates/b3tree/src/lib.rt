//! BLAKE3: modes, chunks, the tree over them, the hash and extended output.
//!
//! Nothing here allocates.
#![tactic(auto)]

pub use b3word::{Input, cv};
pub use bytes::bytes_are;
pub use chunk::{BLOCK_LEN, CHUNK_LEN, chunk_input};
pub use eight::{EightParents, FourParents, Parts, eight_parents, eight_values, lane_parents};
pub use hasher::{Hasher, TooLong};
pub use hashing::{hash, root_hash, rooted, subtree_cv};
pub use lanes::{chunks_a_lane, parent_lanes};
pub use mode::Mode;
pub use output::{xof, xof_fits};
pub use spaced::{spaced_chunks, spaced_values};
pub use tree::{left_len, parent_input, top_input};
pub use values::{Cv, Hash};

mod bytes;
mod chunk;
mod eight;
mod few;
mod flags;
mod hasher;
mod hashing;
mod lanes;
mod mode;
mod output;
mod spaced;
mod stack;
mod tree;
mod values;
