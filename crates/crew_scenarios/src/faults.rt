use anyhow::Result;
use bao_windows::GatherFault;
use gather::FinishFault;
use std::alloc::Global;
use std::fmt::Display;

// A line with a fault's number and its text.
fn tell<F: Display + Drop>(said: &mut String, number: u16, fault: F) -> Result<()> {
    write!(said, "{number} {fault}\n")?;
    Ok(())
}

// Each fault of gathering.
pub fn faults(alloc: Global) -> Result<String> {
    let mut said = String::new(alloc);
    for fault in [
        FinishFault::Unfinished,
        FinishFault::NotTheRoot,
        FinishFault::Memory,
    ] {
        tell(&mut said, fault.code(), fault)?;
    }
    for fault in [
        GatherFault::TooLarge,
        GatherFault::Unfinished,
        GatherFault::NotTheRoot,
        GatherFault::Memory,
        GatherFault::Starved,
    ] {
        tell(&mut said, fault.code(), fault)?;
    }
    Ok(said)
}
