//! Hashes of several files, in lines as `b3sum` prints them; files that are checked against such lines; and what
//! files may be, by their sizes and first bytes. All over any files by their paths ([`Disk`](bao_files::Disk)).
#![tactic(auto)]

pub use checking::{Checking, check_files};
pub use fault::SumsFault;
pub use hashing::{Hashing, hash_files};
pub use info::info_files;
pub use kinds::Seen;
pub use report::Telling;
pub use text::MOST_SUMS_BYTES;
pub use verdict::{Tally, Verdict};

mod ahead;
mod checking;
mod damage;
mod fault;
mod hashing;
mod info;
mod kinds;
mod lines;
mod logic;
mod one;
mod parsing;
mod report;
mod text;
mod verdict;
mod window;
