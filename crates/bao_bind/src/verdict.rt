ghost use Rattle.std.specs.Prelude.{◌≡◌};

use b3tree::Input;
use thiserror::Error;

/// The result of auditing an accepted slice against a blob with its root.
#[derive(Clone, Copy, Debug, PartialEq, Eq)]
pub enum Verdict {
    /// Each chunk of the slice is the blob's chunk of that index; and if the slice has a tail, its length is
    /// the blob's.
    Agrees,
    /// A chunk or the length differs: these two compression inputs are different and have the same chaining
    /// value.
    Collision {
        /// An input that hashing the blob compresses.
        ours: Input,
        /// An input that checking the slice compresses.
        theirs: Input,
    },
}

/// The result of auditing an accepted slice's parents against a blob with its root.
#[derive(Clone, Copy, Debug, PartialEq, Eq)]
pub enum ParentVerdict {
    /// The slice claims the blob's length, and each of its parents is the blob's parent at that boundary.
    Agrees,
    /// The slice claims another length than the blob's, so its boundaries needn't be those of the blob's tree.
    OtherLength,
    /// The slice claims the blob's length, and a parent differs: these two compression inputs are different and
    /// have the same chaining value.
    Collision {
        /// An input that hashing the blob compresses.
        ours: Input,
        /// An input that checking the slice compresses.
        theirs: Input,
    },
}

/// Why a slice can't be audited against a blob.
#[derive(Clone, Copy, Debug, PartialEq, Eq, Error)]
pub enum AuditFault {
    /// The blob's hash in the slice's mode isn't the slice's root. Number 601.
    #[error("601 other root")]
    OtherRoot,
}

impl AuditFault {
    /// Returns the number of the fault: 601.
    pub fn code(&self) -> u16
        ensures { result ≡ 601 }
    {
        601
    }
}
