ghost use Rattle.std.specs.Prelude.{◌≡◌, IfOk, replicate};
ghost use Rattle.bao_tasks.specs.declared.file_fate.Fate.TheVariants as Fate;
ghost use Rattle.bao_tasks.specs.declared.missing.Lack.TheVariants as Lack;

use crate::file_fate::Fate;
use crate::missing::Lack;
use std::alloc::{AllocError, Global};

/// Notes about a gathering from files.
#[derive(Debug, Drop)]
pub struct Notes {
    /// What became of each file, in the order of the files.
    pub fates: Vec<Fate>,
    /// What none of them has, if the blob stayed unfinished and that was asked for.
    pub lack: Lack,
}

impl Notes {
    /// Returns notes on `files` files, none of which was opened. Refuses with `AllocError`.
    pub fn new(alloc: Global, files: usize) -> Result<Notes, AllocError>
        ensures fates { IfOk result (λ notes. notes.fates.items ≡ replicate files Fate.Unopened) }
        ensures lack { IfOk result (λ notes. notes.lack ≡ Lack.Unasked) }
    {
        Ok(Notes {
            fates: vec![in alloc; Fate::Unopened; files]?,
            lack: Lack::Unasked,
        })
    }
}
