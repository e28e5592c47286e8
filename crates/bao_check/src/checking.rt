ghost use Rattle.std.specs.Prelude.{◌≡◌, ◌↔◌, ℕ, ◌+◌, ◌-◌, ◌^◌, ◌<◌, ◌≤◌, List, [], ◌++◌, length, take, true, if◌then◌else◌, IfErr, IfOk, IfSome, IsNone, IsTrue, MatchResult, OnErr, OnOk, Some};
ghost use Rattle.bao_check.specs.declared.fault.CheckFault.TheVariants.{Mismatch, Short, Trailing};
ghost use Rattle.bao_check.specs.Decoded.{chunk_bytes, decoded, waiting_kinds};
ghost use Rattle.bao_check.specs.Streams.{IsOfBytes};
ghost use Rattle.bao_check.specs.Waiting.{AreParts, AreParts-prop, CheckTask, IsAcceptedAs, IsFaultAs, IsStopAs, WaitsIn};

use crate::asked::{Asked, meets};
use crate::decoding::take_nodes;
use crate::fault::CheckFault;
use crate::waiting::{Waiting, is_chunk_next, node_size, push_wanted, take_node};
use arrayvec::ArrayVec;
use b3tree::{Hash, Mode, top_input};
use bao_text::{Choice, LENGTH_LEN, claimed};

// Verifies an encoding's length, and answers what the encoding is of and the parts that come after the length. An empty
// chunk has no bytes of its own, so it is verified with it.
pub(crate) fn begin(
    mode: &Mode,
    root: &Hash,
    start: u64,
    len: u64,
    header: &[u8],
) -> Result<(Choice, Waiting), CheckFault>
    requires { length header.now ≡ 8 }
    ensures chunks { IfOk result (λ begun. begun.0.chunks ≡ true) }
    ensures parts { IfOk result (λ begun. AreParts begun.0 begun.1.items) }
    ensures waits { IfOk result (λ begun. (more : List ℕ) → WaitsIn (record { mode = mode.now; root = root.now.0; start = start; len = len })
        begun.0 begun.1.items (header.now ++ more) 8) }
    ensures decodes { IfOk result (λ begun. (more : List ℕ) → decoded (header.now ++ more) start len ≡ chunk_bytes (waiting_kinds begun.0 begun.1.items) more) }
    ensures fault { IfErr result (λ fault. (fault ≡ Mismatch 8) × ((more : List ℕ) → IsStopAs (record { mode = mode.now; root = root.now.0; start = start; len = len })
        (header.now ++ more) fault 8)) }
{
    let total = claimed(header);
    let choice = Choice::of_slice(total, start, len);
    let asked = Asked::of_root(root);
    let mut waiting = ArrayVec::new();
    if total > 0 {
        push_wanted(&choice, &mut waiting, &asked, 0, total);
        return Ok((choice, waiting));
    }
    if !meets(&asked, &top_input(mode, 0, &[])) {
        return Err(CheckFault::Mismatch {
            at: LENGTH_LEN as u64,
        });
    }
    Ok((choice, waiting))
}

/// What `Checking::decode` accepted.
#[derive(Clone, Copy, Debug, PartialEq, Eq)]
pub struct Decoded {
    /// How many bytes of the input: whole nodes.
    pub taken: usize,
    /// How many bytes of the blob are among them, at the front of the buffer.
    pub filled: usize,
}

/// Checks an encoding as a slice while it arrives, node by node: `check_slice` and `read_checked` for a caller
/// that has neither the whole encoding nor a reader. It doesn't allocate, and keeps none of the bytes.
#[derive(Drop)]
pub struct Checking {
    mode: Mode,
    root: Hash,
    start: u64,
    len: u64,
    // What the encoding is of, once its length is there.
    choice: Choice,
    waiting: Waiting,
    // How many bytes were taken.
    at: u64,
    ghost chunks: { choice.chunks ≡ true },
    ghost parts: { AreParts choice waiting.items } by { AreParts-prop choice waiting.items },
}

impl Checking {
    ghost use Rattle.bao_check.specs.Checking.{HasDecodedAs, HasTakenAs, IsNodeFault, chunk_wanted, wanted};

    /// Returns a check of the slice of `len` bytes from byte `start` on of the blob with the hash `root` in
    /// `mode`. Nothing has been accepted yet.
    pub fn of_slice(mode: &Mode, root: &Hash, start: u64, len: u64) -> Checking
        ensures taken { HasTakenAs result (record { mode = mode.now; root = root.now.0; start = start; len = len }) [] }
        ensures decoded { HasDecodedAs result (record { mode = mode.now; root = root.now.0; start = start; len = len }) [] [] }
    {
        Checking {
            mode: *mode,
            root: *root,
            start,
            len,
            choice: Choice::of_combined(0),
            waiting: ArrayVec::new(),
            at: 0,
        }
    }

    /// Returns a check of the blob's combined encoding: as `of_slice` from byte 0 on with the length 2^64 - 1.
    pub fn of_combined(mode: &Mode, root: &Hash) -> Checking
        ensures taken { HasTakenAs result (record { mode = mode.now; root = root.now.0; start = 0; len = 2 ^ 64 - 1 }) [] }
        ensures decoded { HasDecodedAs result (record { mode = mode.now; root = root.now.0; start = 0; len = 2 ^ 64 - 1 }) [] [] }
    {
        Checking::of_slice(mode, root, 0, u64::MAX)
    }

    /// Returns how many bytes `take` needs next: 8 for the length, 64 for a parent, and 1 to 1,024 for a chunk.
    /// `None` exactly if the bytes accepted so far are an accepted encoding. An encoding that ends within the
    /// next node is short (501) there.
    pub fn wants(&self) -> Option<usize>
        ensures value { result ≡ wanted self.now }
        ensures size { IfSome result (λ size. (1 ≤ size) × (size ≤ 1024)) }
        ensures done { (task : CheckTask) (taken : List ℕ) → HasTakenAs self.now task taken → IsNone result ↔ IsAcceptedAs task taken }
        ensures short { (task : CheckTask) (taken : List ℕ) → HasTakenAs self.now task taken
            → IfSome result (λ size. (more : List ℕ) → length more < size → IsFaultAs task (taken ++ more) (Short (length taken))) }
        ensures trailing { (task : CheckTask) (taken : List ℕ) → HasTakenAs self.now task taken
            → IsNone result → (more : List ℕ) → 0 < length more → IsFaultAs task (taken ++ more) (Trailing (length taken)) }
        ensures blob { (task : CheckTask) (taken blob : List ℕ) → HasDecodedAs self.now task taken blob → IsNone result → decoded taken task.start task.len ≡ blob }
    {
        if self.at == 0 {
            return Some(LENGTH_LEN);
        }
        node_size(&self.waiting)
    }

    /// Returns whether the next node is a chunk, so that `take` accepts bytes of the blob. Its size doesn't
    /// tell: a last chunk may have 64 bytes, as a parent has.
    pub fn wants_chunk(&self) -> bool
        ensures { result ≡ chunk_wanted self.now }
    {
        self.at > 0 && is_chunk_next(&self.waiting)
    }

    /// Returns whether the bytes accepted so far are an accepted encoding.
    pub fn is_done(&self) -> bool
        ensures { (task : CheckTask) (taken : List ℕ) → HasTakenAs self.now task taken → IsTrue result ↔ IsAcceptedAs task taken }
    {
        self.wants().is_none()
    }

    /// Verifies the next node, which has exactly as many bytes as `wants` returns.
    ///
    /// Refuses with 502 `Mismatch` if the node doesn't have the value required there, and with 504 `Memory` if
    /// 2^64 bytes or more would be accepted in all. The check is then unchanged, and other bytes can be tried.
    /// The offset of a mismatch is that of the first fault that `check_slice` finds in every encoding that
    /// begins with the bytes accepted and these: the node's, and 8 for the chunk of an empty blob, which is
    /// verified with the length.
    pub fn take(&mut self, node: &[u8]) -> Result<(), CheckFault>
        requires { wanted self.old ≡ Some (length node.now) }
        ensures taken { (task : CheckTask) (taken : List ℕ) → HasTakenAs self.old task taken → OnOk result (HasTakenAs self.new task (taken ++ node.now)) }
        ensures fault { (task : CheckTask) (taken : List ℕ) → HasTakenAs self.old task taken → IfErr result (IsNodeFault task (taken ++ node.now)) }
        ensures refused { (task : CheckTask) (taken : List ℕ) → HasTakenAs self.old task taken
            → IfErr result (λ fault. IsOfBytes fault → (more : List ℕ) → ¬ IsAcceptedAs task ((taken ++ node.now) ++ more)) }
        ensures begun { (task : CheckTask) → HasTakenAs self.old task [] → OnOk result (HasDecodedAs self.new task node.now []) }
        ensures decoded { (task : CheckTask) (taken blob : List ℕ) → HasDecodedAs self.old task taken blob
            → OnOk result (HasDecodedAs self.new task (taken ++ node.now) (blob ++ (if chunk_wanted self.old then node.now else []))) }
        ensures unchanged { OnErr result (self.new ≡ self.old) }
    {
        let len = node.len() as u64;
        if len > u64::MAX - self.at {
            return Err(CheckFault::Memory);
        }
        if self.at == 0 {
            let (choice, waiting) = begin(&self.mode, &self.root, self.start, self.len, node)?;
            self.choice = choice;
            self.waiting = waiting;
            self.at = len;
            return Ok(());
        }
        take_node(
            &self.choice,
            &mut self.waiting,
            &self.mode,
            self.at,
            node,
            None,
        )?;
        self.at += len;
        Ok(())
    }

    /// Verifies as many whole nodes as `bytes` begins with, and copies the bytes of their chunks, in order, to
    /// the front of `room`, which is at least as long as `bytes`. Returns how many bytes were accepted, and how
    /// many of `room` were filled: bytes of the blob. What is left of `bytes` is less than the next node, or
    /// follows the last.
    ///
    /// Refuses with 502 `Mismatch` at a node that doesn't have the value required there: the first fault of
    /// every encoding that begins with the bytes accepted and these. The nodes before it stay accepted. Refuses
    /// with 504 `Memory` if 2^64 bytes or more would be accepted in all, and accepts none.
    pub fn decode(&mut self, bytes: &[u8], room: &mut [u8]) -> Result<Decoded, CheckFault>
        requires { length bytes.now ≤ length room.old }
        ensures size { length room.new ≡ length room.old }
        ensures bound { IfOk result (λ it. (it.taken ≤ length bytes.now) × (it.filled ≤ it.taken)) }
        ensures taken { (task : CheckTask) (taken : List ℕ) → HasTakenAs self.old task taken → IfOk result (λ it. HasTakenAs self.new task (taken ++ take it.taken bytes.now)) }
        ensures decoded { (task : CheckTask) (taken blob : List ℕ) → HasDecodedAs self.old task taken blob
            → IfOk result (λ it. HasDecodedAs self.new task (taken ++ take it.taken bytes.now) (blob ++ take it.filled room.new)) }
        ensures most { IfOk result (λ it. IfSome (wanted self.new) (λ size. length bytes.now < it.taken + size)) }
        ensures fault { (task : CheckTask) (taken : List ℕ) → HasTakenAs self.old task taken → IfErr result (IsNodeFault task (taken ++ bytes.now)) }
        ensures before { (task : CheckTask) (taken : List ℕ) → HasTakenAs self.old task taken
            → IfErr result (λ _. (used : ℕ) × (used ≤ length bytes.now) × HasTakenAs self.new task (taken ++ take used bytes.now)) }
    {
        if bytes.len() as u64 > u64::MAX - self.at {
            return Err(CheckFault::Memory);
        }
        if self.at > 0 {
            return self.decode_nodes(bytes, room);
        }
        if bytes.len() < LENGTH_LEN {
            return Ok(Decoded {
                taken: 0,
                filled: 0,
            });
        }
        let (header, nodes) = bytes.split_at(LENGTH_LEN);
        self.take(header)?;
        let decoded = self.decode_nodes(nodes, room)?;
        Ok(Decoded {
            taken: LENGTH_LEN + decoded.taken,
            filled: decoded.filled,
        })
    }

    // The same once the length was taken.
    fn decode_nodes(&mut self, bytes: &[u8], room: &mut [u8]) -> Result<Decoded, CheckFault>
        requires begun { 0 < self.old.at }
        requires places { self.old.at + length bytes.now < 2 ^ 64 }
        requires room { length bytes.now ≤ length room.old }
        ensures size { length room.new ≡ length room.old }
        ensures bound { IfOk result (λ it. (it.taken ≤ length bytes.now) × (it.filled ≤ it.taken)) }
        ensures taken { (task : CheckTask) (taken : List ℕ) → HasTakenAs self.old task taken → IfOk result (λ it. HasTakenAs self.new task (taken ++ take it.taken bytes.now)) }
        ensures decoded { (task : CheckTask) (taken blob : List ℕ) → HasDecodedAs self.old task taken blob
            → IfOk result (λ it. HasDecodedAs self.new task (taken ++ take it.taken bytes.now) (blob ++ take it.filled room.new)) }
        ensures most { IfOk result (λ it. IfSome (wanted self.new) (λ size. length bytes.now < it.taken + size)) }
        ensures fault { (task : CheckTask) (taken : List ℕ) → HasTakenAs self.old task taken → IfErr result (IsNodeFault task (taken ++ bytes.now)) }
        ensures before { (task : CheckTask) (taken : List ℕ) → HasTakenAs self.old task taken
            → IfErr result (λ _. (used : ℕ) × (used ≤ length bytes.now) × HasTakenAs self.new task (taken ++ take used bytes.now)) }
    {
        let before = self.at;
        let filled = take_nodes(
            &self.choice,
            &mut self.waiting,
            &self.mode,
            &mut self.at,
            bytes,
            room,
        )?;
        Ok(Decoded {
            taken: (self.at - before) as usize,
            filled,
        })
    }

    /// Returns the verdict on the encoding that consists of the bytes accepted so far and then `rest`, which is
    /// less than the next node.
    ///
    /// Refuses with its first fault: 501 `Short` at the next node, if one is missing, or 503 `Trailing` at the
    /// end of the last, if `rest` follows it.
    pub fn finish(&self, rest: &[u8]) -> Result<(), CheckFault>
        requires { IfSome (wanted self.now) (λ size. length rest.now < size) }
        ensures { (task : CheckTask) (taken : List ℕ) → HasTakenAs self.now task taken
            → MatchResult result (λ _. IsAcceptedAs task (taken ++ rest.now)) (IsFaultAs task (taken ++ rest.now)) }
    {
        if self.wants().is_some() {
            return Err(CheckFault::Short { at: self.at });
        }
        if rest.is_empty() {
            Ok(())
        } else {
            Err(CheckFault::Trailing { at: self.at })
        }
    }
}
