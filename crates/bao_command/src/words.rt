ghost use Rattle.std.specs.Prelude.{◌≡◌, ◌⊎◌, IfErr};
ghost use Rattle.bao_files.specs.declared.fault.FileFault.TheVariants as FileFault;

use crate::fault::Fault;
use bao_files::FileFault;
use std::env;
use std::io::ErrorKind;
use std::rt::Env;

/// Returns the arguments of the process, its name first.
///
/// Refuses with `Word` if one isn't UTF-8, and with `File` and `Memory` only if out of memory.
pub fn own_words<R: Env + AllocGlobal>(rt: &R) -> Result<Vec<String>, Fault<'static>>
    ensures { IfErr result (λ fault. (fault ≡ Fault.Word) ⊎ (fault ≡ Fault.File FileFault.Memory)) }
{
    let memory = Fault::File(FileFault::Memory);
    let words = match env::args(rt) {
        Ok(words) => words,
        // `clap` takes text, and has no kind for this.
        Err(error) if error.kind() == ErrorKind::InvalidData => return Err(Fault::Word),
        Err(_) => return Err(memory),
    };
    match words.collect(rt.alloc()) {
        Ok(words) => Ok(words),
        Err(_) => Err(memory),
    }
}
