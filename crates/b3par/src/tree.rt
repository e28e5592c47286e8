ghost use Rattle.std.specs.Prelude.{◌≡◌, ◌+◌, ◌-◌, ◌*◌, ◌^◌, ◌<◌, ◌≤◌, ◌++◌, [], if◌then◌else◌, length, IfErr, IfOk, IfSome};
ghost use Rattle.b3word.specs.Compression.{cv};
ghost use Rattle.b3tree.specs.Bytes.{bytes_of};
ghost use Rattle.b3tree.specs.Tree.{parent_input};
ghost use Rattle.b3tree.specs.declared.mode.Mode.{Mode};
ghost use Rattle.bao_text.specs.Texts.{joined};
ghost use Rattle.bao_text.specs.declared.choice.Choice.{Choice};
ghost use Rattle.b3par.specs.Encodings.{GainsText};
ghost use Rattle.b3par.specs.Given.{Lacks};
ghost use Rattle.b3par.specs.Jobs.{AllThere, IsJobAnswer};

use crate::fault::ReadFault;
use crate::jobs::Answer;
use crate::source::Source;
use crate::subtree_text::{Made, make};
use b3tree::{CHUNK_LEN, Cv, Input, Mode, cv, left_len, parent_input};
use bao_text::{Choice, PARENT_LEN, put_parent};
use std::alloc::{AllocError, Global};

/// A subtree's last compression, and what the choice wants of it, as buffers that follow one another.
#[derive(Drop)]
pub(crate) struct Tree {
    pub top: Input,
    pub texts: Vec<Vec<u8>>,
}

// Takes the answer for this place out of the slot with the number `number`, if it is there. `S` is the kind of source that
// the contract speaks of.
fn taken<S: Source>(
    slots: &mut [Option<Answer>],
    number: usize,
    first: u64,
    len: u64,
) -> Option<Answer>
    ensures place { IfSome result (λ answer. (answer.job.first ≡ first) × (answer.job.len ≡ len)) }
    ensures right { (source : S) (choice : Choice) (mode : Mode)
        → AllThere (IsJobAnswer (S.contents source) (S.faultless source) choice mode) slots.old
        → AllThere (IsJobAnswer (S.contents source) (S.faultless source) choice mode) slots.new
        × IfSome result (IsJobAnswer (S.contents source) (S.faultless source) choice mode) }
{
    if number >= slots.len() {
        return None;
    }
    match slots[number].take() {
        Some(answer) if answer.job.first == first && answer.job.len == len => Some(answer),
        _ => None,
    }
}

// The job with the number `number`: what was answered for it, or what it comes to now.
fn made_of<S: Source>(
    alloc: Global,
    choice: &Choice,
    mode: &Mode,
    source: &S,
    number: usize,
    first: u64,
    len: u64,
    slots: &mut [Option<Answer>],
    piece: &mut Vec<u8>,
) -> Result<Made, ReadFault>
    requires range { 1024 * first + len ≤ 2 ^ 64 - 1 }
    requires right { AllThere (IsJobAnswer (S.contents source.now) (S.faultless source.now) choice.now mode.now) slots.old }
    ensures right { AllThere (IsJobAnswer (S.contents source.now) (S.faultless source.now) choice.now mode.now) slots.new }
    ensures text { IfOk result (λ made. GainsText (S.contents source.now) choice.now mode.now first len [] made.text.items made.top) }
    ensures fault { IfErr result (λ fault. fault ≡ ReadFault.Reader → Lacks (S.contents source.now) (S.faultless source.now) (1024 * first + len)) }
{
    match taken::<S>(slots, number, first, len) {
        Some(answer) => answer.made,
        None => make(alloc, choice, mode, source, first, len, piece),
    }
}

// A job's tree: no text at all where its text is empty.
fn tree_of(alloc: Global, made: Made) -> Result<Tree, AllocError>
    ensures top { IfOk result (λ tree. tree.top ≡ made.top) }
    ensures texts { IfOk result (λ tree. joined tree.texts.items ≡ made.text.items) }
{
    let Made { top, text } = made;
    let mut texts = Vec::new(alloc);
    if !text.is_empty() {
        texts.push(text)?;
    }
    Ok(Tree { top, texts })
}

// The text of a parent alone.
fn parent_text(alloc: Global, left: &Cv, right: &Cv) -> Result<Vec<u8>, AllocError>
    ensures { IfOk result (λ text. text.items ≡ bytes_of left.now.0 ++ bytes_of right.now.0) }
{
    let mut parent = vec![in alloc; 0u8; PARENT_LEN]?;
    put_parent(&mut parent, 0, left, right);
    Ok(parent)
}

// A parent, where it is wanted, and then its parts.
fn tree_of_parts(
    alloc: Global,
    mode: &Mode,
    is_wanted: bool,
    left: Tree,
    right: Tree,
) -> Result<Tree, AllocError>
    ensures top { IfOk result (λ tree. tree.top ≡ parent_input mode.now (cv left.top) (cv right.top)) }
    ensures texts { IfOk result (λ tree. joined tree.texts.items
        ≡ (if is_wanted then bytes_of (cv left.top) ++ bytes_of (cv right.top) else []) ++ (joined left.texts.items ++ joined right.texts.items)) }
{
    let Tree {
        top,
        texts: mut near,
    } = left;
    let left = Cv(cv(&top));
    let Tree {
        top,
        texts: mut far,
    } = right;
    let right = Cv(cv(&top));
    let mut texts = Vec::new(alloc);
    if is_wanted {
        texts.push(parent_text(alloc, &left, &right)?)?;
    }
    texts.append(&mut near)?;
    texts.append(&mut far)?;
    Ok(Tree {
        top: parent_input(mode, &left, &right),
        texts,
    })
}

/// Returns the tree over `len` bytes of the source, which begins with chunk `first`, from the answers in
/// `slots`: those of its subtrees of at most `chunks` chunks. What isn't there is computed here.
#[cycle(trees)]
pub(crate) fn tree_over<S: Source>(
    alloc: Global,
    choice: &Choice,
    mode: &Mode,
    source: &S,
    chunks: u64,
    first: u64,
    len: u64,
    slots: &mut [Option<Answer>],
    piece: &mut Vec<u8>,
) -> Result<Tree, ReadFault>
    requires some { 0 < chunks }
    requires most { 1024 * chunks ≤ 2 ^ 63 }
    requires range { 1024 * first + len ≤ 2 ^ 64 - 1 }
    requires right { AllThere (IsJobAnswer (S.contents source.now) (S.faultless source.now) choice.now mode.now) slots.old }
    ensures right { AllThere (IsJobAnswer (S.contents source.now) (S.faultless source.now) choice.now mode.now) slots.new }
    ensures text { IfOk result (λ tree. GainsText (S.contents source.now) choice.now mode.now first len [] (joined tree.texts.items) tree.top) }
    ensures fault { IfErr result (λ fault. fault ≡ ReadFault.Reader → Lacks (S.contents source.now) (S.faultless source.now) (1024 * first + len)) }
{
    if len <= CHUNK_LEN as u64 * chunks {
        let number = (first / chunks) as usize;
        let made = made_of(
            alloc, choice, mode, source, number, first, len, slots, piece,
        )?;
        return Ok(tree_of(alloc, made)?);
    }
    let left_len = left_len(len);
    let right_len = len - left_len;
    let right_first = first + left_len / CHUNK_LEN as u64;
    let left = tree_over(
        alloc, choice, mode, source, chunks, first, left_len, slots, piece,
    )?;
    let right = tree_over(
        alloc,
        choice,
        mode,
        source,
        chunks,
        right_first,
        right_len,
        slots,
        piece,
    )?;
    let is_wanted = choice.wants(CHUNK_LEN as u64 * first, len);
    Ok(tree_of_parts(alloc, mode, is_wanted, left, right)?)
}
