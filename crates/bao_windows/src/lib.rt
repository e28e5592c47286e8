//! Gathers a blob of any length window by window from untrusted sources, and writes it on the way.
#![tactic(auto)]

pub use asking::ask;
pub use driver::write_windows;
pub use fault::{GatherFault, WindowsFault};
pub use law::outline_binds;
pub use length::certified_length;
pub use wanted::Wanted;

mod appending;
mod asking;
mod driver;
mod fault;
mod fetching;
mod group;
mod law;
mod length;
mod output;
mod taking;
mod value;
mod wanted;
mod window;
