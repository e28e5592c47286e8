// The file that a slice is cut out of.

ghost use Rattle.std.specs.Prelude.{◌≡◌, ◌⊎◌, IfErr, IfOk, IsSome};
ghost use Rattle.bao_files.specs.Disks.{IsStored};
ghost use Rattle.bao_files.specs.declared.fault.FileFault.TheVariants as FileFault;
ghost use Rattle.bao_decode.specs.Opened.{OpensWith, is_origin_faultless, origin_contents};

use crate::plain_copy::regular_len;
use b3par::Source;
use bao_files::{Disk, FileFault, read_input};
use std::alloc::Global;
use std::io;

/// A regular file, which is read by position, or all bytes that it had.
#[derive(Drop)]
pub(crate) enum Origin<I> {
    Placed(I),
    Held(Vec<u8>),
}

impl<I: Source> Source for Origin<I> {
    ghost contents = { origin_contents I.contents };

    ghost faultless = { is_origin_faultless I.faultless };

    fn read_at(&self, buf: &mut [u8], at: u64) -> io::Result<usize> {
        match self {
            Origin::Placed(file) => file.read_at(buf, at),
            Origin::Held(bytes) => bytes.as_slice().read_at(buf, at),
        }
    }
}

/// Opens the file at `path`, to be read while `out`, the file at `out_path`, is written.
///
/// If they are one file, which can't be replaced atomically, all of it is read into memory first. Refuses with `Read` and
/// `path` if the file can't be opened or read, or isn't regular, and with `Memory`.
pub(crate) fn origin_of<'a, D: Disk>(
    alloc: Global,
    disk: &D,
    path: &'a str,
    out: &D::Draft,
    out_path: &str,
) -> Result<Origin<D::Input>, FileFault<'a>>
    ensures opened { IfOk result (λ origin. OpensWith (D.at disk.now path.now) (origin_contents D.Input.contents origin)) }
    ensures sure { IfOk result (λ origin. D.faultless disk.now → is_origin_faultless D.Input.faultless origin) }
    ensures fault { IfErr result (λ fault. (fault ≡ FileFault.Memory) ⊎ (fault ≡ FileFault.Read path.entry)) }
    ensures there { IfErr result (λ fault. IsSome (D.Draft.contents out.now) → D.faultless disk.now → IsStored (D.at disk.now path.now) → fault ≡ FileFault.Memory) }
{
    let mut file = disk.open(path)?;
    let Some(_) = regular_len(disk.extent(&file)) else {
        return Err(FileFault::Read(path));
    };
    if disk.is_replaced(out) || !disk.is_same(&file, out_path) {
        return Ok(Origin::Placed(file));
    }
    Ok(Origin::Held(read_input(alloc, &mut file, 0, path)?))
}
