//! Reads and writes files and standard streams: hashes, encodings and digits, each by a function over any
//! reader or writer, or over any files by their paths ([`Disk`]). The progress of a long read is shown.
#![tactic(auto)]

pub use digits::{bytes_of_digits, print_count, print_digits, print_output, print_text};
pub use disk::Disk;
pub use extent::Extent;
pub use fault::FileFault;
pub use input::{
    InputFault, STANDARD_INPUT, open_file, read_file, read_input, read_sized, read_whole,
};
pub use key::read_key;
pub use late_file::LateFile;
pub use memory_files::{HeldInput, MemoryFiles};
pub use meter::Meter;
pub use one_try::Once;
pub use output::{encode_input, encode_on, write_encoding};
pub use progress::Progress;
pub use reading::{hash_reader, print_file, print_input, print_reader};
pub use shown::Shown;
pub use system::System;

mod again;
mod ahead;
mod digits;
mod disk;
mod extent;
mod fault;
mod input;
mod key;
mod late_file;
mod memory_files;
mod meter;
mod one_try;
mod output;
mod places;
mod progress;
mod progress_line;
mod reading;
mod shown;
mod system;
