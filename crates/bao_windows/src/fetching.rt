ghost use Rattle.std.specs.Prelude.{IsErrOf, OnOk};
ghost use Rattle.holders.specs.declared.holder.HolderFault.TheVariants.{Memory};

use holders::HolderFault;
use std::alloc::AllocError;

// Passes over a device that failed, of which nothing came. That there was no memory is the only fault.
pub(crate) fn pass_over(fetched: Result<(), HolderFault>) -> Result<(), AllocError>
    ensures { OnOk result (IsErrOf fetched Memory → ⊥) }
{
    match fetched {
        Ok(()) => Ok(()),
        Err(HolderFault::Device) => Ok(()),
        Err(HolderFault::Memory) => Err(AllocError),
    }
}
