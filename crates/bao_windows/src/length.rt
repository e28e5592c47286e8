ghost use Rattle.std.specs.Prelude.{◌≡◌, ◌⊎◌, ◌<◌, length, None, IfErr, IfOk, IfSome, IsErrOf};
ghost use Rattle.bao_windows.specs.declared.fault.GatherFault.TheVariants.{Starved, Unfinished};
ghost use Rattle.holders.specs.Forms.{IsLengthOf};
ghost use Rattle.bao_windows.specs.Available.{CertifiesEnd, HasNoEnd, IsFirstEnd, IsFitting, RefusesEnd, end_start};
ghost use Rattle.bao_windows.specs.Windows.{IsFrom, IsLengthOfEach, fixed_for};

use crate::appending::CHUNK_BYTES;
use crate::asking::ask;
use crate::fault::GatherFault;
use crate::wanted::Wanted;
use b3par::Source;
use bao_text::chunk_count;
use holders::{ByteRange, Form};
use std::alloc::{AllocError, Global};

// Where the byte is that the length is asked for by: the last that a blob may have, or, beside an outline, the first of the last chunk.
fn end_start(form: &Form<'_>) -> u64
    ensures { result ≡ end_start form.now }
{
    match form {
        Form::Slices => u64::MAX,
        Form::Bare(outline) => CHUNK_BYTES * (chunk_count(outline.claimed()) - 1),
    }
}

// The length that this source's last chunk certifies.
fn length_from<S: Source>(
    alloc: Global,
    wanted: &Wanted<'_>,
    sources: &[S],
    place: usize,
    start: u64,
    room: &mut Vec<u8>,
) -> Result<Option<u64>, AllocError>
    requires fitting { IsFitting wanted.now wanted.now.form }
    requires place { place < length sources.now }
    requires start { start ≡ end_start wanted.now.form }
    ensures each { IfOk result (λ found. IfSome found (λ l. IsLengthOfEach (IsFrom wanted.now S.contents S.faultless sources.now) (fixed_for wanted.now) l)) }
    ensures of { IfOk result (λ found. IfSome found (λ l. IsLengthOf wanted.now.form l)) }
    ensures certified { IfOk result (λ found. IfSome found (CertifiesEnd S.contents S.faultless wanted.now sources.now place)) }
    ensures refused { IfOk result (λ found. found ≡ None → RefusesEnd S.contents S.faultless wanted.now sources.now place) }
{
    let asked = ByteRange { start, len: 1 };
    match ask(alloc, wanted, &sources[place], asked, room)? {
        Some(piece) => match piece.tail() {
            Some(tail) => Ok(Some(tail.length())),
            None => Ok(None),
        },
        None => Ok(None),
    }
}

/// Returns the length in bytes of the blob with this root, as the last chunk of the first source that has it
/// certifies: by the slice (2^64 - 1, 1), or beside an outboard encoding by the last chunk of the length that
/// this claims. Each source is asked at most once, in order.
///
/// It is the length of every blob with the root; or a collision is exhibited: two different inputs with the
/// same chaining value, one from the blob and one from a slice that came from a source and is accepted under
/// the root. Beside an outboard encoding it is the length that this claims. What the sources before that one
/// supplied is refused.
///
/// Refuses with 911 `Starved` if there is no memory for what a source supplies, and with 901 `Unfinished` if
/// none has the last chunk: what each supplied isn't accepted, or doesn't have the last chunk of the length
/// that it claims.
pub fn certified_length<S: Source>(
    alloc: Global,
    wanted: &Wanted<'_>,
    sources: &[S],
) -> Result<u64, GatherFault>
    ensures each { IfOk result (λ l. IsLengthOfEach (IsFrom wanted.now S.contents S.faultless sources.now) (fixed_for wanted.now) l) }
    ensures of { IfOk result (λ l. IsLengthOf wanted.now.form l) }
    ensures certified { IfOk result (IsFirstEnd S.contents S.faultless wanted.now sources.now) }
    ensures fault { IfErr result (λ fault. (fault ≡ Unfinished) ⊎ (fault ≡ Starved)) }
    ensures missing { IsErrOf result Unfinished → HasNoEnd S.contents S.faultless wanted.now sources.now }
{
    let start = end_start(&wanted.form);
    if !wanted.is_fitting() {
        return Err(GatherFault::Unfinished);
    }
    let mut room = Vec::new(alloc);
    for place in 0..sources.len() {
        match length_from(alloc, wanted, sources, place, start, &mut room) {
            Ok(Some(length)) => return Ok(length),
            Ok(None) => {}
            Err(_) => return Err(GatherFault::Starved),
        }
    }
    Err(GatherFault::Unfinished)
}
