//! That the contracts of `holders`, `store_core`, `store_steps`, `store_shared` and `gather` determine what their
//! functions answer, as far as they do. Two stores that stand for the same, asked the same, answer the same and then
//! stand for the same, but where one runs out of memory. A seat that is alone, with all names that there are, is
//! answered by what it has seen: two such seats that have seen the same, asked the same, are answered the same and have
//! then seen the same; and a one-thread store that stands for the same answers the same and then stands for the same.
//! Each law of a seat that is alone looks round after its call. That makes no call: by it the seat knows that no other
//! came between.
//!
//! Which texts a worker asks for, and so all counts of its report but those that its contract names, is in no
//! contract: tests alone show it.
#![tactic(auto)]

mod alone;
mod crews;
mod fetches;
mod filled;
mod finishing;
mod loads;
mod one_thread;
mod peers;
mod pieces;
mod replays;
mod rooms;
mod rounds;
mod runs;
mod seats;
mod served;
mod steps;
mod store;
mod values;
mod workers;
