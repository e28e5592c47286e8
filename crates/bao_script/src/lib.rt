//! The text form of a schedule: parsed, and run over slices of encodings.
#![tactic(auto)]

mod fault;
mod forms;
mod law;
mod line;
mod numbered;
mod printed;
mod replay;
mod run;
mod script;
mod slice;
mod steps;
mod words;

pub use fault::{ReplayScriptFault, ScriptFault};
pub use law::scripts_bind;
pub use line::Line;
pub use numbered::NumberedLine;
pub use replay::replay_script;
pub use script::{Script, parse};
