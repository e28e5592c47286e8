//! The C library: the functions that `c/berylwool.h` declares.
//!
//! Each function calls one of a library, and its contract repeats that function's. The header says in words what each
//! returns and writes, what a slice (`start`, `len`) is, and which rules its callers keep, which no call checks. A status
//! is 0 or the number of a fault.
#![tactic(auto)]

mod about;
mod auditing;
mod checking;
mod decoding;
mod feeding;
mod freeing;
mod fronts;
mod gathering;
mod handle;
mod hasher;
mod hashing;
mod holding;
mod joining;
mod laws;
mod loose;
mod mode;
mod nodes;
mod outlined;
mod outlines;
mod owned;
mod plan;
mod ranges;
mod room;
mod seats;
mod serving;
mod sizes;
mod slice;
mod slicing;
mod status;
mod storing;
mod writing;
