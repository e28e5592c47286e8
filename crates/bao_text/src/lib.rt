//! Bao encodings written: combined, outboard and slices (Bao specification).
#![tactic(auto)]

pub use choice::Choice;
pub use cut::{append_cut, claimed, cut_slice};
pub use fault::{Memory, WriteFault};
pub use kinds::{Encoding, Part};
pub use places::{Places, part_of};
pub use sizes::{
    CV_LEN, EIGHT_LEN, LENGTH_LEN, PARENT_LEN, chunk_count, encoded_len, outboard_len, subtree_size,
};
pub use slices::nodes;
pub use texts::{append_subtree, combined, outboard, put_parent, slice};
pub use walk::{Node, Nodes, WAITING_LEN};
pub use writer::{write_combined, write_text, write_texts};

mod choice;
mod cut;
mod eight;
mod fault;
mod kinds;
mod pieces;
mod places;
mod sizes;
mod slices;
mod texts;
mod walk;
mod writer;
