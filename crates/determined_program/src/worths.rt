// What sources are worth whose bytes are known, and of which no read fails. Memory may run out at any time, and is the only fault.

ghost use Rattle.std.specs.Prelude.{◌≡◌, ◌<◌, ◌^◌, IfOk, IfSome, length};

use b3par::Source;
use bao_tasks::{Worth, worth_of};
use bao_text::Memory;
use bao_windows::Wanted;
use std::alloc::Global;

pub fn worth_of_determined<S: Source>(
    alloc: Global,
    wanted: &Wanted<'_>,
    source: &S,
) -> (Result<Worth, Memory>, Result<Worth, Memory>)
    ensures { IfSome (S.contents source.now) (λ bytes. length bytes < 2 ^ 64 → S.faultless source.now → IfOk result.0 (λ a. IfOk result.1 (λ b. a ≡ b))) }
{
    (
        worth_of(alloc, wanted, source),
        worth_of(alloc, wanted, source),
    )
}
