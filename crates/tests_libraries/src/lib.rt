//! Tests of the libraries: threads run to their end, calls to which memory is refused, and readers, writers and files that fail.
//! Their bytes, and a writer that fails, are for the tests of the program too.
#![tactic(auto)]

pub mod bytes;
#[cfg(test)]
mod memory;
#[cfg(test)]
mod streams;
#[cfg(test)]
mod threads;
