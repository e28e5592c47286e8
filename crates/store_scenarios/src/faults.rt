use anyhow::Result;
use bao_text::Node;
use std::alloc::Global;
use std::fmt::Display;
use store_core::{BadCapacity, ReplayFault, ServeFault, StoreFault};
use store_shared::{NewFault, NoGroup, OtherRoot, ParentsFault};

// A line with a fault's number and its text.
fn tell<F: Display + Drop>(said: &mut String, number: u16, fault: F) -> Result<()> {
    write!(said, "{number} {fault}\n")?;
    Ok(())
}

// Each fault of the stores.
pub fn faults(alloc: Global) -> Result<String> {
    let mut said = String::new(alloc);
    for fault in [
        StoreFault::Memory,
        StoreFault::NoGroup,
        StoreFault::OtherRoot,
        StoreFault::OtherLength,
    ] {
        tell(&mut said, fault.code(), fault)?;
    }
    for fault in [
        ServeFault::NoLength,
        ServeFault::Lacking(Node::Chunk(7)),
        ServeFault::Memory,
    ] {
        tell(&mut said, fault.code(), fault)?;
    }
    tell(&mut said, BadCapacity.code(), BadCapacity)?;
    for fault in [
        ReplayFault::Memory,
        ReplayFault::Illegal { step: 7 },
        ReplayFault::Capacity,
    ] {
        tell(&mut said, fault.code(), fault)?;
    }
    for fault in [NewFault::Memory, NewFault::Capacity] {
        tell(&mut said, fault.code(), fault)?;
    }
    tell(&mut said, NoGroup.code(), NoGroup)?;
    tell(&mut said, OtherRoot.code(), OtherRoot)?;
    for fault in [ParentsFault::OtherRoot, ParentsFault::OtherLength] {
        tell(&mut said, fault.code(), fault)?;
    }
    Ok(said)
}
