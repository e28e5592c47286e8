//! Holders of a blob, what they are asked for and how, and the pieces that are accepted from them.
#![tactic(auto)]

pub use encoded::Encoded;
pub use fixed::Fixed;
pub use form::{ByteRange, Form};
pub use grain::Grain;
pub use holder::{Holder, HolderFault};
pub use holding::Holding;
pub use piece::Piece;
pub use places::Placed;
pub use plain::Plain;

mod encoded;
mod fixed;
mod form;
mod grain;
mod holder;
mod holding;
mod piece;
mod places;
mod plain;
