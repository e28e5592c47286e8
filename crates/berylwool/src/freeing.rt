// In a file of its own because its clauses name the layout of a handle in memory.
ghost use Rattle.std.specs.Borrow.{sem};
ghost use denote.RawPtr.{Testable};
ghost use Rattle.berylwool.specs.declared.handle.BwHandle.{BwHandle as Handle};
ghost use Rattle.berylwool.specs.Freed.{handle_at, empty_at};

use crate::handle::{BwHandle, freed};
use std::alloc::Global;

/// Frees what a handle owns, if anything, and leaves it empty. A null pointer does nothing.
#[unsafe(no_mangle)]
pub extern "C" fn bw_free(alloc: Global, handle: *mut BwHandle)
    ghost had: { Handle }
    requires testable { Testable handle }
    requires* there { sem 𝓛 (handle_at handle had) }
    ensures* empty { sem 𝓛 (empty_at handle) }
{
    if handle.is_null() {
        return;
    }
    unsafe {
        let full = handle.read();
        handle.write(freed(alloc, full));
    }
}
