//! Calls to which memory is refused: each tells so, and where something is left of it, a store or a vector, a second one does what
//! was asked for. `rt try --test --fail-alloc N` refuses one allocation, `make refuse` each.

mod fetches;
mod hashes;
mod serving;
mod stores;
mod texts;
mod workers;
