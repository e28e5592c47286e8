ghost use Rattle.std.specs.Prelude.{◌≡◌, ◌*◌, ◌^◌, ◌<◌, ◌≤◌, false, true, ℕ, if◌then◌else◌, IfOk};
ghost use Rattle.bao_tasks.specs.Missing.{BeginsWithin};
ghost use Rattle.bao_tasks.specs.Worth.{GoesOn, IsSaidOf, IsWorthAs, group_count, groups_of};

use crate::missing::lacks_part;
use b3par::{Source, ends_at, fill};
use bao_check::{GROUP_BYTES, GROUP_LEN};
use bao_text::{LENGTH_LEN, Memory, chunk_count, claimed};
use bao_windows::Wanted;
use holders::Form;
use std::alloc::Global;

/// How many groups of 64 chunks (65,536 bytes of the blob) a file is asked for, and how many of them are refused.
///
/// It depends on that file alone: not on other files, nor on the workers.
#[derive(Clone, Copy, Debug, PartialEq, Eq)]
pub struct Worth {
    /// How many groups it is asked for, at least one.
    pub groups: u64,
    /// How many of them are refused.
    pub refused: u64,
}

// How many groups a blob of `len` bytes has.
fn group_count(len: u64) -> u64
    ensures value { result ≡ group_count len }
    ensures most { result ≤ 2 ^ 48 }
{
    chunk_count(len).div_ceil(GROUP_LEN)
}

// How many groups a source is asked for.
fn groups_of<S: Source>(form: &Form<'_>, source: &S) -> u64
    ensures value { IsSaidOf (S.contents source.now) (S.faultless source.now) (λ bytes. result ≡ groups_of form.now bytes) }
    ensures within { (g : ℕ) → g < result → BeginsWithin form.now (64 * g) }
{
    match form {
        Form::Slices => {
            let mut first = [0; LENGTH_LEN];
            match fill(source, 0, &mut first) {
                Ok(()) => group_count(claimed(&first)),
                Err(_) => 1,
            }
        }
        Form::Bare(outline) => group_count(outline.claimed()),
    }
}

// Returns whether an encoding has no more bytes than the blob has before a group.
fn has_ended<S: Source>(form: &Form<'_>, source: &S, group: u64) -> bool
    requires { group < 2 ^ 48 }
    ensures ends { result ≡ true → IsSaidOf (S.contents source.now) (S.faultless source.now) (λ bytes. (g : ℕ) → group ≤ g → ¬ GoesOn form.now bytes g) }
    ensures goes { result ≡ false → IsSaidOf (S.contents source.now) (S.faultless source.now) (λ bytes. GoesOn form.now bytes group) }
{
    match form {
        Form::Slices => ends_at(source, GROUP_BYTES * group),
        Form::Bare(_) => false,
    }
}

// 1 for a refusal, to count it.
fn one_if(refused: bool) -> u64
    ensures value { result ≡ (if refused then 1 else 0) }
    ensures most { result ≤ 1 }
{
    if refused { 1 } else { 0 }
}

/// Counts how many groups of a source are refused under this root in this mode. For each group g, the slice
/// (65,536 * g, 65,536) is cut from a combined encoding and checked; or the group's bytes in a plain copy are checked
/// beside the outboard encoding.
///
/// The groups are all those of the length that the encoding claims. A combined encoding of fewer than 8 bytes claims none
/// and is asked for one group, which is refused. Group g is refused unread if the combined encoding has at most 65,536 * g
/// bytes, so a false length costs no time. Of a plain copy no byte is read past the length. A group whose read fails is
/// refused.
///
/// The memory is that of one group. Refuses with `Memory` (401); a group isn't counted as refused for that.
pub fn worth_of<S: Source>(alloc: Global, wanted: &Wanted<'_>, source: &S) -> Result<Worth, Memory>
    ensures worth { IfOk result (IsWorthAs wanted.now.form wanted.now.mode wanted.now.root.0 (S.contents source.now) (S.faultless source.now)) }
    ensures few { IfOk result (λ worth. worth.refused ≤ worth.groups) }
{
    let groups = groups_of(&wanted.form, source);
    let mut room = Vec::new(alloc);
    let mut refused = 0;
    for group in 0..groups {
        if has_ended(&wanted.form, source, group) {
            refused += groups - group;
            return Ok(Worth { groups, refused });
        }
        let verdict = lacks_part(
            alloc,
            wanted,
            source,
            GROUP_LEN * group,
            GROUP_LEN,
            &mut room,
        )?;
        refused += one_if(verdict);
    }
    Ok(Worth { groups, refused })
}
