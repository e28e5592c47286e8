ghost use Rattle.std.specs.Prelude.{◌≡◌, ◌⊎◌, ◌<◌, ℕ, true, map};
ghost use Rattle.bao_check.specs.Checked.{piece_nodes};
ghost use Rattle.bao_text.specs.NodeNames.{name};
ghost use Rattle.gather.specs.Filled.{Keeps};
ghost use Rattle.gather.specs.Claims.{Among};
ghost use Rattle.gather.specs.Counts.{HasFailedSince, Reports};
ghost use Rattle.gather.specs.Groups.{AreGroups, IsNext};
ghost use Rattle.holders.specs.Holders.{IsIt};
ghost use Rattle.holders.specs.Pieces.{holds_parent, length_of, piece_of};
ghost use Rattle.store_core.specs.Stores.{IsOf};

use crate::masks::MAX_GROUPS;
use crate::report::Report;
use crate::shelf::Shelf;
use bao_check::{Checked, GROUP_LEN};
use bao_text::Node;
use store_core::StoreFault;

const GROUPS: usize = MAX_GROUPS as usize;

/// Returns which of a store's 1,024 possible groups of 64 boundaries have a parent of the accepted slice, so
/// that `commit_parents` can store some from it. It doesn't allocate.
pub fn boundary_groups(piece: &Checked<'_>) -> [bool; GROUPS]
    ensures { AreGroups (map name (piece_nodes piece.now)) result }
{
    let mut groups = [false; GROUPS];
    for node in piece.nodes() {
        if let Node::Parent(boundary) = node {
            let group = boundary / GROUP_LEN;
            if group < MAX_GROUPS {
                groups[group as usize] = true;
            }
        }
    }
    groups
}

// The least group from `from` on that is marked.
fn next_group(groups: &[bool; GROUPS], from: u32) -> Option<u32>
    ensures { IsNext from groups.now result }
{
    for group in from..MAX_GROUPS as u32 {
        if groups[group as usize] {
            return Some(group);
        }
    }
    None
}

// Stores the piece's parents, one group that has any of their boundaries after another. Where it claims the recorded length, all of
// them are known to be held then, or memory was refused.
pub(crate) fn store_parents<S: Shelf>(
    shelf: &S,
    seat: &mut S::Seat,
    piece: &Checked<'_>,
    report: &mut Report,
)
    requires { S.has shelf.now seat.old }
    ensures has { S.has shelf.now seat.new }
    ensures reports { Reports S.fixed_of S.gained seat.old seat.new (IsIt (piece_of (S.fixed_of seat.old).base piece.now)) (IsIt (piece_of (S.fixed_of seat.old).base piece.now)) 0 0 report.old report.new }
    ensures claims { Among (S.claims seat.old) (S.claims seat.new) }
    ensures keeps { Keeps (S.claims seat.old) (S.claims seat.new) }
    ensures parents { IsOf (S.fixed_of seat.old) piece.now → S.records seat.old (length_of (piece_of (S.fixed_of seat.old).base piece.now))
        → HasFailedSince report.old report.new ⊎ ((m : ℕ) → m < 65536 → holds_parent (piece_of (S.fixed_of seat.old).base piece.now) m ≡ true → S.has_parent seat.new m) }
{
    report.fits();
    let groups = boundary_groups(piece);
    let mut from = 0;
    while let Some(group) = next_group(&groups, from) {
        report.fits();
        match shelf.commit_parents(seat, group, piece) {
            Ok(stored) => {
                report.parents = report
                    .parents
                    .saturating_add(u64::from(stored.count_ones()));
            }
            Err(fault) => {
                if fault == StoreFault::Memory {
                    report.count_memory();
                }
            }
        }
        from = group + 1;
    }
}
