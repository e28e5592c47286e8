// The pieces of an input that is read a second time: while one is written, two other threads read the halves of the next one.

ghost use Rattle.std.specs.Prelude.{◌≡◌, ℕ, List, [], Option, ◌+◌, ◌*◌, ◌-◌, ◌++◌, ◌^◌, ◌<◌, ◌≤◌, if◌then◌else◌, length, true, IfOk, IfSome};
ghost use Rattle.std.specs.Thread.{IsSync};
ghost use Rattle.b3tree.specs.declared.mode.Mode.{Mode};
ghost use Rattle.b3par.specs.Encodings.{GainsText};
ghost use Rattle.bao_text.specs.declared.choice.Choice.{Choice};
ghost use Rattle.bao_files.specs.Again.{Sends};
ghost use Rattle.bao_files.specs.Ahead.{AreRead, AreUnread, IsPieceOf, IsRead, IsUnread, all_of};
ghost use Rattle.b3tree.specs.Bytes.{bytes_of};
ghost use Rattle.bao_text.specs.Choice.{wants};

use crate::again::{AgainFault, send};
use b3par::{Source, fill};
use b3tree::{CHUNK_LEN, Cv, Input, Mode, bytes_are, cv, left_len, parent_input};
use bao_text::{Choice, PARENT_LEN, append_subtree, subtree_size};
use std::alloc::{AllocError, Global};
use std::io::Write;
use std::mem::swap;
use std::thread::{Threads, join_mut};

// The most bytes that one thread reads: so many that it is worth its start, and few enough to stay in a processor's cache.
const HALF_LEN: usize = 1 << 19;

// The most bytes of a piece.
const AHEAD_LEN: usize = 2 * HALF_LEN;

const AHEAD_CHUNKS: u64 = (AHEAD_LEN / CHUNK_LEN) as u64;

/// An encoding in parts, which two threads make: that of the parent of two subtrees, and theirs. Where one thread
/// makes all of it, that is in `near`.
#[derive(Drop)]
pub(crate) struct Parts {
    parent: Vec<u8>,
    near: Vec<u8>,
    far: Vec<u8>,
}

/// A buffer for bytes, and those for their encoding.
#[derive(Drop)]
pub(crate) struct ReadAhead {
    // The number of its first chunk, and how many bytes it has.
    first: u64,
    len: u64,
    // Its chaining value. There is none before the first read, nor where there was no memory for the encoding.
    value: Result<Option<Cv>, AgainFault>,
    bytes: Vec<u8>,
    text: Parts,
}

// How many bytes the piece from chunk `first` on may have: none past the end of what is encoded.
fn len_from(choice: &Choice, first: u64) -> u64
    ensures { 0 < result → 1024 * first + result ≤ 2 ^ 64 - 1 }
{
    let at = first.saturating_mul(CHUNK_LEN as u64);
    choice.end().saturating_sub(at)
}

// Reads as many bytes as `bytes` has, from chunk `first` on, and appends their encoding to `text`. Where there is no memory for that,
// which was had before, it is not made.
fn append<S: Source>(
    mode: &Mode,
    choice: &Choice,
    source: &S,
    first: u64,
    bytes: &mut [u8],
    text: &mut Vec<u8>,
) -> Result<Option<Input>, AgainFault>
    requires { 1024 * first + length bytes.old ≤ 2 ^ 64 - 1 }
    ensures { IfOk result (λ made. IfSome made (λ top. GainsText (S.contents source.now) choice.now mode.now first (length bytes.old) text.old.items text.new.items top)) }
{
    if fill(source, CHUNK_LEN as u64 * first, bytes).is_err() {
        return Err(AgainFault::Input);
    }
    // A law, so that the proof has what it says: nothing runs.
    bytes_are(bytes);
    match append_subtree(choice, mode, first, bytes, text) {
        Ok(top) => Ok(Some(top)),
        Err(_) => Ok(None),
    }
}

// Puts a parent's encoding, if the choice wants it, and returns whether there is memory for it.
fn put_wanted(
    choice: &Choice,
    at: u64,
    len: u64,
    left: &Cv,
    right: &Cv,
    parent: &mut Vec<u8>,
) -> bool
    requires { parent.old.items ≡ [] }
    ensures { result ≡ true → parent.new.items ≡ (if wants choice.now at len then bytes_of left.now.0 ++ bytes_of right.now.0 else []) }
{
    if !choice.wants(at, len) {
        return true;
    }
    parent.extend_from_slice(&left.to_bytes()).is_ok()
        && parent.extend_from_slice(&right.to_bytes()).is_ok()
}

// As `append`, of more bytes than a chunk, by two threads.
fn append_halves<R: Threads + Sync, S: Source + Sync>(
    rt: &R,
    mode: &Mode,
    choice: &Choice,
    source: &S,
    first: u64,
    bytes: &mut [u8],
    text: &mut Parts,
) -> Result<Option<Input>, AgainFault>
    requires more { 1024 < length bytes.old }
    requires range { 1024 * first + length bytes.old ≤ 2 ^ 64 - 1 }
    requires empty { (text.old.parent.items ≡ []) × (text.old.near.items ≡ []) × (text.old.far.items ≡ []) }
    ensures { IfOk result (λ made. IfSome made (λ top. GainsText (S.contents source.now) choice.now mode.now first (length bytes.old) [] (all_of text.new) top)) }
{
    let at = CHUNK_LEN as u64 * first;
    let len = bytes.len() as u64;
    let left_len = left_len(len);
    let far_first = first + left_len / CHUNK_LEN as u64;
    let (left, right) = bytes.split_at_mut(left_len as usize);
    let near = &mut text.near;
    let far = &mut text.far;
    let (left, right) = join_mut(
        rt,
        &mut || -> Result<Option<Input>, AgainFault>
            requires { IsSync S.row × (1024 * first + length left.now ≤ 2 ^ 64 - 1) }
            ensures { IfOk result (λ made. IfSome made (λ top.
                GainsText (S.contents source.entry.now) choice.entry.now mode.entry.now first (length left.entry.now) near.entry.now.items near.exit.now.items top)) }
        { append(mode, choice, source, first, left, near) },
        &mut || -> Result<Option<Input>, AgainFault>
            requires { 1024 * far_first + length right.now ≤ 2 ^ 64 - 1 }
            ensures { IfOk result (λ made. IfSome made (λ top.
                GainsText (S.contents source.entry.now) choice.entry.now mode.entry.now far_first (length right.entry.now) far.entry.now.items far.exit.now.items top)) }
        { append(mode, choice, source, far_first, right, far) },
    );
    let (Some(left), Some(right)) = (left?, right?) else {
        return Ok(None);
    };
    let left = Cv(cv(&left));
    let right = Cv(cv(&right));
    if !put_wanted(choice, at, len, &left, &right, &mut text.parent) {
        return Ok(None);
    }
    Ok(Some(parent_input(mode, &left, &right)))
}

impl Parts {
    fn clear(&mut self)
        ensures { (self.new.parent.items ≡ []) × (self.new.near.items ≡ []) × (self.new.far.items ≡ []) }
    {
        self.parent.clear();
        self.near.clear();
        self.far.clear();
    }

    // Writes all of it.
    fn send<W: Write>(&self, out: &mut W) -> Result<(), AgainFault>
        ensures { Sends (all_of self.now) (W.contents out.old) (W.contents out.new) result }
    {
        send(self.parent.as_slice(), out)?;
        send(self.near.as_slice(), out)?;
        send(self.far.as_slice(), out)
    }
}

impl ReadAhead {
    // Nothing was read yet.
    fn new(alloc: Global) -> Result<ReadAhead, AllocError>
        ensures { IfOk result IsUnread }
    {
        let bytes = vec![in alloc; 0u8; AHEAD_LEN]?;
        let half_len = subtree_size(HALF_LEN as u64) as usize;
        let text = Parts {
            parent: Vec::with_capacity(alloc, PARENT_LEN)?,
            near: Vec::with_capacity(alloc, half_len)?,
            far: Vec::with_capacity(alloc, half_len)?,
        };
        Ok(ReadAhead {
            first: 0,
            len: 0,
            value: Ok(None),
            bytes,
            text,
        })
    }

    // Whether it is of `n` bytes from chunk `first` on.
    fn is_of(&self, first: u64, n: u64) -> bool
        ensures { result ≡ true → (self.now.first ≡ first) × (self.now.len ≡ n) }
    {
        self.first == first && self.len == n
    }

    // Whether its encoding is that of `n` bytes from chunk `first` on with this value.
    fn is_asked(&self, asked: &Cv, first: u64, n: u64) -> Result<bool, AgainFault>
        ensures { (contents : Option (List ℕ)) (choice : Choice) (mode : Mode) → IsRead contents choice mode self.now
            → IfOk result (λ is. is ≡ true → IsPieceOf contents choice mode first n asked.now.0 (all_of self.now.text)) }
    {
        if !self.is_of(first, n) {
            return Ok(false);
        }
        match self.value {
            Ok(Some(value)) if value == *asked => Ok(true),
            Ok(Some(_)) => Err(AgainFault::Input),
            Ok(None) => Ok(false),
            Err(fault) => Err(fault),
        }
    }
}

// Reads the piece from chunk `first` on, and makes its encoding, where there is memory for it.
fn read_piece<R: Threads + Sync, S: Source + Sync>(
    rt: &R,
    mode: &Mode,
    choice: &Choice,
    source: &S,
    first: u64,
    piece: &mut ReadAhead,
)
    ensures { IsRead (S.contents source.now) choice.now mode.now piece.new }
{
    let len = len_from(choice, first).min(piece.bytes.len() as u64);
    piece.first = first;
    piece.len = len;
    piece.text.clear();
    if len == 0 {
        piece.value = Ok(None);
        return;
    }
    let bytes = &mut piece.bytes.as_mut_slice()[..len as usize];
    let text = &mut piece.text;
    let top = if len <= HALF_LEN as u64 {
        append(mode, choice, source, first, bytes, &mut text.near)
    } else {
        append_halves(rt, mode, choice, source, first, bytes, text)
    };
    piece.value = match top {
        Ok(Some(top)) => Ok(Some(Cv(cv(&top)))),
        Ok(None) => Ok(None),
        Err(fault) => Err(fault),
    };
}

/// The buffers that are written, and those that are read after them.
#[derive(Drop)]
pub(crate) struct Pieces {
    now: ReadAhead,
    next: ReadAhead,
}

// Writes all of the text, while other threads read the piece from chunk `first` on.
fn send_and_read<R: Threads + Sync, S: Source + Sync, W: Write>(
    rt: &R,
    mode: &Mode,
    choice: &Choice,
    source: &S,
    first: u64,
    piece: &mut ReadAhead,
    text: &Parts,
    out: &mut W,
) -> Result<(), AgainFault>
    ensures read { IsRead (S.contents source.now) choice.now mode.now piece.new }
    ensures sent { Sends (all_of text.now) (W.contents out.old) (W.contents out.new) result }
{
    let (_, sent) = join_mut(
        rt,
        &mut ||
            requires { IsSync R.row × IsSync S.row }
            ensures { IsRead (S.contents source.entry.now) choice.entry.now mode.entry.now piece.exit.now }
        { read_piece(rt, mode, choice, source, first, piece) },
        &mut || -> Result<(), AgainFault>
            ensures { Sends (all_of text.entry.now) (W.contents out.entry.now) (W.contents out.exit.now) result }
        { text.send(out) },
    );
    sent
}

impl Pieces {
    /// Returns buffers into which nothing was read yet.
    pub(crate) fn new(alloc: Global) -> Result<Pieces, AllocError>
        ensures { IfOk result AreUnread }
    {
        let now = ReadAhead::new(alloc)?;
        let next = ReadAhead::new(alloc)?;
        Ok(Pieces { now, next })
    }

    // Goes on to the piece of `n` bytes from chunk `first` on, which is read now if it wasn't before.
    fn go_on<R: Threads + Sync, S: Source + Sync>(
        &mut self,
        rt: &R,
        mode: &Mode,
        choice: &Choice,
        source: &S,
        first: u64,
        n: u64,
    )
        requires { AreRead (S.contents source.now) choice.now mode.now self.old }
        ensures { AreRead (S.contents source.now) choice.now mode.now self.new }
    {
        swap(&mut self.now, &mut self.next);
        if self.now.is_of(first, n) {
            return;
        }
        read_piece(rt, mode, choice, source, first, &mut self.now);
    }

    /// Reads and verifies the `n` bytes from chunk `first` on, and returns whether their encoding is ready: it
    /// isn't if they are more than a buffer has, or if there is no memory for it.
    ///
    /// Refuses with `Input` if they can't be read, or have another value.
    pub(crate) fn fetch<R: Threads + Sync, S: Source + Sync>(
        &mut self,
        rt: &R,
        mode: &Mode,
        choice: &Choice,
        source: &S,
        asked: &Cv,
        first: u64,
        n: u64,
    ) -> Result<bool, AgainFault>
        requires { AreRead (S.contents source.now) choice.now mode.now self.old }
        ensures read { AreRead (S.contents source.now) choice.now mode.now self.new }
        ensures piece { IfOk result (λ is_there. is_there ≡ true → IsPieceOf (S.contents source.now) choice.now mode.now first n asked.now.0 (all_of self.new.now.text)) }
    {
        if n > AHEAD_LEN as u64 {
            return Ok(false);
        }
        self.go_on(rt, mode, choice, source, first, n);
        self.now.is_asked(asked, first, n)
    }

    /// Writes the encoding that is ready, while other threads read the bytes after it.
    pub(crate) fn write<R: Threads + Sync, S: Source + Sync, W: Write>(
        &mut self,
        rt: &R,
        mode: &Mode,
        choice: &Choice,
        source: &S,
        out: &mut W,
    ) -> Result<(), AgainFault>
        requires { AreRead (S.contents source.now) choice.now mode.now self.old }
        ensures read { AreRead (S.contents source.now) choice.now mode.now self.new }
        ensures sent { Sends (all_of self.old.now.text) (W.contents out.old) (W.contents out.new) result }
    {
        let next_first = self.now.first.saturating_add(AHEAD_CHUNKS);
        send_and_read(
            rt,
            mode,
            choice,
            source,
            next_first,
            &mut self.next,
            &self.now.text,
            out,
        )
    }
}
