use crate::outlined::Outlined;
use b3tree::Hasher;
use bao_check::Checking;
use bao_plan::Plan;
use std::alloc::Global;
use std::sync::Arc;
use store_shared::{Assembly, Seat};

/// A seat and its share of the store.
#[derive(Drop)]
pub struct Seated {
    pub(crate) store: Arc<Assembly, Global>,
    pub(crate) seat: Seat,
}

/// What a handle owns. What is large stands in a box of its own, so that a seat takes little memory.
#[derive(Drop)]
pub enum Held {
    Hasher(Box<Hasher, Global>),
    Feed(Box<Checking, Global>),
    Seat(Seated),
    Outline(Arc<Outlined, Global>),
    Plan(Plan),
    /// Nothing, while a call uses what the handle owned.
    Gone,
}
