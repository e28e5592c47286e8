// Lists of what a blob lacks.

ghost use Rattle.std.specs.Prelude.{◌≡◌, ℕ, List, IfSome, OnErr, OnOk};
ghost use Rattle.determined_program.specs.Files.{SameWhereKnown};

use bao_files::{Disk, FileFault};
use bao_tasks::{Span, list_parts, write_parts};
use std::io;
use std::io::Write;

// A writer may fail at any time, and then holds a beginning.
pub fn write_parts_determined<V: Write, W: Write>(
    parts: &[Span],
    ours: &mut V,
    theirs: &mut W,
) -> (io::Result<()>, io::Result<()>)
    requires { V.contents ours.old ≡ W.contents theirs.old }
    ensures { IfSome (V.contents ours.old) (λ _. OnOk result.0 (OnOk result.1 (V.contents ours.new ≡ W.contents theirs.new))) }
{
    (write_parts(parts, ours), write_parts(parts, theirs))
}

// Either fault may come at any time. Where both lists are put, what is at each path is the same, of which it was known before.
pub fn list_parts_determined<'a, D: Disk, E: Disk>(
    ours: &mut D,
    theirs: &mut E,
    parts: &[Span],
    path: &'a str,
) -> (Result<(), FileFault<'a>>, Result<(), FileFault<'a>>)
    requires { (at : List ℕ) → D.at ours.old at ≡ E.at theirs.old at }
    ensures put { OnOk result.0 (OnOk result.1 (SameWhereKnown (D.at ours.old) (D.at ours.new) (E.at theirs.new))) }
    ensures kept { OnErr result.0 (OnErr result.1 (SameWhereKnown (D.at ours.old) (D.at ours.new) (E.at theirs.new))) }
{
    (
        list_parts(ours, parts, path),
        list_parts(theirs, parts, path),
    )
}
