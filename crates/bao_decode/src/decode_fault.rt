use bao_check::CheckFault;
use bao_files::FileFault;
use thiserror::Error;

/// Why a file was not decoded. Displayed as the program prints it.
#[derive(Clone, Copy, Debug, Error)]
pub enum DecodeFault<'a> {
    /// A file can't be read or written, or memory ran out.
    #[error("{0}")]
    File(FileFault<'a>),
    /// The encoding, or the plain copy, isn't accepted: its first fault.
    #[error("{0}")]
    Check(CheckFault),
}

impl DecodeFault<'_> {
    ghost use Rattle.std.specs.Prelude.{◌≡◌};
    ghost use Rattle.bao_decode.specs.DecodeFaults.{decode_number_of};

    /// Returns the number of the fault, if it has one: 401, or 501 to 504.
    pub fn code(&self) -> Option<u16>
        ensures { result ≡ decode_number_of self.now }
    {
        match self {
            DecodeFault::File(fault) => fault.code(),
            DecodeFault::Check(fault) => Some(fault.code()),
        }
    }
}

impl<'a> From<FileFault<'a>> for DecodeFault<'a> {
    ghost use Rattle.std.specs.Prelude.{◌≡◌};
    ghost use Rattle.bao_decode.specs.declared.decode_fault.DecodeFault.TheVariants as DecodeFault;

    ghost from_gives = { λ file fault. fault ≡ DecodeFault.File file };

    fn from(file: FileFault<'a>) -> Self {
        DecodeFault::File(file)
    }
}
