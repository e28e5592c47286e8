//! BLAKE3's compression function (BLAKE3 paper, 2.2), on one input and on two, four or eight at once.
#![tactic(auto)]

pub use compression::{IV, compress, cv};
pub use input::Input;
pub use lanes::{cv_lanes, cv8, joined, transposed};
pub use pair::{cv_pair, cv_two_pairs};

mod compression;
mod input;
mod lanes;
mod pair;
