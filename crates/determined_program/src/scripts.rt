// Scripts.

ghost use Rattle.std.specs.Prelude.{◌≡◌, length};
ghost use Rattle.bao_script.specs.Slices.{NameFiles};
ghost use Rattle.determined_program.specs.Replays.{IsWantOfRun};
ghost use Rattle.determined_texts.specs.Agreeing.{AgreeButFor, AgreeUnless};

use b3tree::{Hash, Mode};
use bao_script::{NumberedLine, ReplayScriptFault, Script, ScriptFault, parse, replay_script};
use std::alloc::Global;

pub fn lines_determined<'a>(script: &'a Script) -> (&'a [NumberedLine], &'a [NumberedLine])
    ensures { result.0.now ≡ result.1.now }
{
    (script.lines(), script.lines())
}

// Memory may run out at either.
pub fn parse_determined(
    alloc: Global,
    text: &[u8],
    files: usize,
) -> (Result<Script, ScriptFault>, Result<Script, ScriptFault>)
    ensures { AgreeButFor ScriptFault.Memory (λ x y. x ≡ y) result.0 result.1 }
{
    let one = parse(alloc, text, files);
    let other = parse(alloc, text, files);
    (one, other)
}

// Memory may run out at either, and then one of three faults says for what.
pub fn replay_script_determined(
    alloc: Global,
    root: Hash,
    mode: Mode,
    capacity: u32,
    script: &Script,
    files: &[Vec<u8>],
) -> (
    Result<Vec<u8>, ReplayScriptFault>,
    Result<Vec<u8>, ReplayScriptFault>,
)
    requires { NameFiles (length files.now) script.now }
    ensures { AgreeUnless (λ x y. x.items ≡ y.items) IsWantOfRun IsWantOfRun result.0 result.1 }
{
    let one = replay_script(alloc, root, mode, capacity, script, files);
    let other = replay_script(alloc, root, mode, capacity, script, files);
    (one, other)
}
