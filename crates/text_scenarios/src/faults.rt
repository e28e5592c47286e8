use anyhow::Result;
use b3par::{ParFault, ReadFault};
use b3tree::TooLong;
use bao_bind::AuditFault;
use bao_check::CheckFault;
use bao_text::{Memory, WriteFault};
use std::alloc::Global;
use std::fmt::Display;

// A line with a fault's number and its text.
fn tell<F: Display + Drop>(said: &mut String, number: u16, fault: F) -> Result<()> {
    write!(said, "{number} {fault}\n")?;
    Ok(())
}

// Each fault of the crates that write, check and audit texts.
pub fn faults(alloc: Global) -> Result<String> {
    let mut said = String::new(alloc);
    tell(&mut said, TooLong.code(), TooLong)?;
    tell(&mut said, Memory.code(), Memory)?;
    for fault in [WriteFault::Memory, WriteFault::Writer { written: 1000 }] {
        tell(&mut said, fault.code(), fault)?;
    }
    for fault in [
        CheckFault::Short { at: 0 },
        CheckFault::Mismatch { at: 136 },
        CheckFault::Trailing { at: u64::MAX },
        CheckFault::Memory,
        CheckFault::Reader,
    ] {
        tell(&mut said, fault.code(), fault)?;
    }
    tell(&mut said, ParFault::Memory.code(), ParFault::Memory)?;
    for fault in [ReadFault::Memory, ReadFault::Reader] {
        tell(&mut said, fault.code(), fault)?;
    }
    let fault = AuditFault::OtherRoot;
    tell(&mut said, fault.code(), fault)?;
    Ok(said)
}
