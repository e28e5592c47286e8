//! Threads that are run to their end, beside one another: the pool of hashes, a shared store's seats, workers that wait for each
//! other, and stores in a ring, each of which is a holder of the next, while all fill.

mod claims;
mod meeting;
mod pool;
mod readers;
mod ring;
mod stores;
mod workers;
