//! Encodings and plain copies in files, decoded to files; slices cut out of them. Only verified bytes are written.
#![tactic(auto)]

pub use damage::{has_slice, outline_length};
pub use decode::{decode_on, read_text, write_decoded, write_draft};
pub use decode_fault::DecodeFault;
pub use plain_copy::{decode_copy_on, read_outboard_on, write_copy};
pub use slicing::{slice_beside_on, slice_on, write_slice};

mod copy_pass;
mod cut;
mod damage;
mod decode;
mod decode_fault;
mod encoding_pass;
mod forward;
mod origin;
mod plain_copy;
mod slicing;
mod text_pass;
mod woven;
