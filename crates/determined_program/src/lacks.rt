// What no source has of a blob.

ghost use Rattle.std.specs.Prelude.{◌≡◌, IfOk};
ghost use Rattle.bao_windows.specs.Available.{AreSound};
ghost use Rattle.determined_program.specs.Lacks.{SameLack};

use b3par::Source;
use bao_tasks::{Lack, Notes, lack_of};
use bao_windows::Wanted;
use std::alloc::{AllocError, Global};

// Memory may run out at any time.
pub fn lack_of_determined<S: Source>(
    alloc: Global,
    wanted: &Wanted<'_>,
    sources: &[S],
    most: usize,
) -> (Lack, Lack)
    requires { AreSound S.contents S.faultless sources.now }
    ensures { SameLack result.0 result.1 }
{
    let one = lack_of(alloc, wanted, sources, most);
    let other = lack_of(alloc, wanted, sources, most);
    (one, other)
}

pub fn notes_determined(alloc: Global, files: usize) -> Result<(Notes, Notes), AllocError>
    ensures fates { IfOk result (λ made. made.0.fates.items ≡ made.1.fates.items) }
    ensures lack { IfOk result (λ made. made.0.lack ≡ made.1.lack) }
{
    let one = Notes::new(alloc, files)?;
    let other = Notes::new(alloc, files)?;
    Ok((one, other))
}
