//! The program: over files in memory, over files of the system's, and with streams that fail; and blobs gathered from files to
//! writers that fail.
#![tactic(auto)]

#[cfg(test)]
mod commands;
#[cfg(test)]
mod gathering;
#[cfg(test)]
mod program;
