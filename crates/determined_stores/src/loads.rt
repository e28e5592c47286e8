// Loads that a grip makes which is alone: for reads, for slices that are served, and for parents that are to be stored.

ghost use Rattle.std.specs.Prelude.{◌≡◌, ◌<◌};
ghost use Rattle.determined_stores.specs.Alone.{AreAlike};
ghost use Rattle.store_shared.specs.Grips.{CoversGroup, IsGripOf, fixed_of};
ghost use Rattle.store_core.specs.Stores.{IsOf};
ghost use Rattle.store_steps.specs.Slices.{node_number};

use bao_check::Checked;
use bao_text::Node;
use store_steps::{Grip, Words};

pub fn words_look_round_alone(a: &Words, b: &Words, first: &mut Grip, second: &mut Grip)
    requires first { IsGripOf a.now first.old }
    requires second { IsGripOf b.now second.old }
    requires alike { AreAlike first.old.view second.old.view }
    ensures { AreAlike first.new.view second.new.view }
{
    a.look_round(first);
    b.look_round(second);
}

pub fn words_load_alone(
    a: &Words,
    b: &Words,
    first: &mut Grip,
    second: &mut Grip,
    group: u32,
    at: u64,
    len: u64,
) -> (u64, u64)
    requires first { IsGripOf a.now first.old }
    requires second { IsGripOf b.now second.old }
    requires alike { AreAlike first.old.view second.old.view }
    requires groups { CoversGroup a.now group × CoversGroup b.now group }
    ensures { (result.0 ≡ result.1) × AreAlike first.new.view second.new.view }
{
    let ours = a.load(first, group, at, len);
    a.look_round(first);
    let theirs = b.load(second, group, at, len);
    b.look_round(second);
    (ours, theirs)
}

pub fn words_load_node_alone(
    a: &Words,
    b: &Words,
    first: &mut Grip,
    second: &mut Grip,
    node: &Node,
    last: bool,
    start: u64,
    len: u64,
) -> (bool, bool)
    requires first { IsGripOf a.now first.old }
    requires second { IsGripOf b.now second.old }
    requires alike { AreAlike first.old.view second.old.view }
    requires node { (node_number node.now < (fixed_of a.now).capacity) × (node_number node.now < (fixed_of b.now).capacity) }
    ensures { (result.0 ≡ result.1) × AreAlike first.new.view second.new.view }
{
    let ours = a.load_node(first, node, last, start, len);
    a.look_round(first);
    let theirs = b.load_node(second, node, last, start, len);
    b.look_round(second);
    (ours, theirs)
}

pub fn words_length_to_serve_alone(
    a: &Words,
    b: &Words,
    first: &mut Grip,
    second: &mut Grip,
    start: u64,
    len: u64,
) -> (Option<u64>, Option<u64>)
    requires first { IsGripOf a.now first.old }
    requires second { IsGripOf b.now second.old }
    requires alike { AreAlike first.old.view second.old.view }
    ensures { (result.0 ≡ result.1) × AreAlike first.new.view second.new.view }
{
    let ours = a.length_to_serve(first, start, len);
    a.look_round(first);
    let theirs = b.length_to_serve(second, start, len);
    b.look_round(second);
    (ours, theirs)
}

pub fn words_length_to_store_alone(
    a: &Words,
    b: &Words,
    first: &mut Grip,
    second: &mut Grip,
    group: u32,
    piece: &Checked<'_>,
) -> (Option<u64>, Option<u64>)
    requires first { IsGripOf a.now first.old }
    requires second { IsGripOf b.now second.old }
    requires alike { AreAlike first.old.view second.old.view }
    requires piece { IsOf (fixed_of a.now) piece.now × IsOf (fixed_of b.now) piece.now }
    ensures { (result.0 ≡ result.1) × AreAlike first.new.view second.new.view }
{
    let ours = a.length_to_store(first, group, piece);
    a.look_round(first);
    let theirs = b.length_to_store(second, group, piece);
    b.look_round(second);
    (ours, theirs)
}
