// Holders, and what they append. Memory alone may refuse it, and a device: where both calls append, they append the same.

ghost use Rattle.std.specs.Prelude.{◌≡◌, ◌-◌, ◌<◌, IfErr, OnOk};
ghost use Rattle.holders.specs.declared.holder.HolderFault.TheVariants.{Memory};
ghost use Rattle.holders.specs.Encodings.{encoding};
ghost use Rattle.holders.specs.Places.{OfBytes};
ghost use Rattle.holders.specs.Plains.{copy_of};

use b3par::Source;
use holders::{Encoded, Holder, HolderFault, Plain};

pub fn encoded_determined<'a>(text: &'a [u8]) -> (Encoded<&'a [u8]>, Encoded<&'a [u8]>)
    ensures { encoding result.0 ≡ encoding result.1 }
{
    let one = Encoded::new(text);
    let other = Encoded::new(text);
    (one, other)
}

pub fn encoded_fetch_determined(
    a: &mut Encoded<&[u8]>,
    b: &mut Encoded<&[u8]>,
    start: u64,
    len: u64,
    ours: &mut Vec<u8>,
    theirs: &mut Vec<u8>,
) -> (Result<(), HolderFault>, Result<(), HolderFault>)
    requires same { encoding a.old ≡ encoding b.old }
    requires buffers { ours.old.items ≡ theirs.old.items }
    ensures text { OnOk result.0 (OnOk result.1 (ours.new.items ≡ theirs.new.items)) }
    ensures memory { IfErr result.0 (λ fault. fault ≡ Memory) }
    ensures same { encoding a.new ≡ encoding b.new }
{
    (a.fetch(start, len, ours), b.fetch(start, len, theirs))
}

pub fn encoded_faults_determined(a: &Encoded<&[u8]>, b: &Encoded<&[u8]>) -> (u64, u64)
    ensures { result.0 ≡ result.1 }
{
    (a.faults(), b.faults())
}

pub fn plain_determined<'a>(copy: &'a [u8]) -> (Plain<&'a [u8]>, Plain<&'a [u8]>)
    ensures { copy_of result.0 ≡ copy_of result.1 }
{
    let one = Plain::new(copy);
    let other = Plain::new(copy);
    (one, other)
}

pub fn plain_fetch_determined(
    a: &mut Plain<&[u8]>,
    b: &mut Plain<&[u8]>,
    start: u64,
    len: u64,
    ours: &mut Vec<u8>,
    theirs: &mut Vec<u8>,
) -> (Result<(), HolderFault>, Result<(), HolderFault>)
    requires same { copy_of a.old ≡ copy_of b.old }
    requires buffers { ours.old.items ≡ theirs.old.items }
    ensures text { OnOk result.0 (OnOk result.1 (ours.new.items ≡ theirs.new.items)) }
    ensures memory { IfErr result.0 (λ fault. fault ≡ Memory) }
    ensures same { copy_of a.new ≡ copy_of b.new }
{
    (a.fetch(start, len, ours), b.fetch(start, len, theirs))
}

pub fn plain_faults_determined(a: &Plain<&[u8]>, b: &Plain<&[u8]>) -> (u64, u64)
    ensures { result.0 ≡ result.1 }
{
    (a.faults(), b.faults())
}

// The bytes of a source are known, its count of faults isn't full, and it has no more bytes than a file can have.
pub fn encoded_at_fetch_determined<S: Source>(
    source: &S,
    start: u64,
    len: u64,
    ours: &mut Vec<u8>,
    theirs: &mut Vec<u8>,
) -> (Result<(), HolderFault>, Result<(), HolderFault>)
    requires { ours.old.items ≡ theirs.old.items }
    ensures text { OfBytes (S.contents source.now) (λ _. OnOk result.0 (OnOk result.1 (ours.new.items ≡ theirs.new.items))) }
    ensures memory { S.faultless source.now → IfErr result.0 (λ fault. fault ≡ Memory) }
{
    let mut a = Encoded::at(source);
    let mut b = Encoded::at(source);
    (a.fetch(start, len, ours), b.fetch(start, len, theirs))
}

pub fn plain_at_fetch_determined<S: Source>(
    source: &S,
    start: u64,
    len: u64,
    ours: &mut Vec<u8>,
    theirs: &mut Vec<u8>,
) -> (Result<(), HolderFault>, Result<(), HolderFault>)
    requires { ours.old.items ≡ theirs.old.items }
    ensures text { OfBytes (S.contents source.now) (λ _. OnOk result.0 (OnOk result.1 (ours.new.items ≡ theirs.new.items))) }
    ensures memory { S.faultless source.now → IfErr result.0 (λ fault. fault ≡ Memory) }
{
    let mut a = Plain::at(source);
    let mut b = Plain::at(source);
    (a.fetch(start, len, ours), b.fetch(start, len, theirs))
}

// No fault is counted yet.
pub fn new_faults_determined<S: Source>(source: &S) -> (u64, u64)
    ensures { result.0 ≡ result.1 }
{
    (Encoded::at(source).faults(), Plain::at(source).faults())
}
