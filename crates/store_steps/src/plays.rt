ghost use Rattle.std.specs.Prelude.{ℕ, Bool};
ghost use Rattle.bao_text.specs.declared.walk.Node.{Node};
ghost use Rattle.holders.specs.declared.piece.Piece.{Piece};

use crate::items::Item;
use atomic_table::Play;
use std::collections::LinkedList;
use std::marker::{Brand, PhantomData};
use store_core::SeatView;

// What a call was asked for beside the words' own operands, which alone a `Play` reads: picked at each call from its
// arguments.
pub(crate) trait Arguments {
    ghost use Rattle.std.specs.Prelude.{ℕ};
    ghost use Rattle.holders.specs.declared.piece.Piece.{Piece};

    ghost group: { ℕ };

    ghost first: { ℕ };

    ghost second: { ℕ };

    ghost piece: { Piece };
}

impl Arguments for Brand {
    ghost use Rattle.store_steps.specs.Plays.{no_piece};

    ghost group = { 0 };

    ghost first = { 0 };

    ghost second = { 0 };

    ghost piece = { no_piece };
}

// What a load of a node's held word was asked for: the node, whether it is its slice's last, and the slice's start and length.
pub(crate) trait NodeArguments {
    ghost use Rattle.std.specs.Prelude.{ℕ, Bool};
    ghost use Rattle.bao_text.specs.declared.walk.Node.{Node};

    ghost node: { Node };

    ghost last: { Bool };

    ghost start: { ℕ };

    ghost len: { ℕ };
}

impl NodeArguments for Brand {
    ghost use Rattle.std.specs.Prelude.{false};
    ghost use Rattle.bao_text.specs.declared.walk.Node.TheVariants.{Chunk};

    ghost node = { Chunk 0 };

    ghost last = { false };

    ghost start = { 0 };

    ghost len = { 0 };
}

// `group`, and `first` for the wanted mask.
pub(crate) struct Taking<A> {
    asked: PhantomData<A>,
}

impl<A: Arguments> Play<(), LinkedList<SeatView>> for Taking<A> {
    ghost use Rattle.store_steps.specs.Plays.{OfOne, TakesChunks};

    ghost then = { λ step me found later. OfOne (TakesChunks A.group A.first step.first found) me later };
}

// `group`, `first` for the mask and `second` for that of the chunks given.
pub(crate) struct Giving<A> {
    asked: PhantomData<A>,
}

impl<A: Arguments> Play<(), LinkedList<SeatView>> for Giving<A> {
    ghost use Rattle.store_steps.specs.Plays.{OfOne, Gives};

    ghost then = { λ step me found later. OfOne (Gives A.group A.first A.second) me later };
}

// `first` for the item and `second` for its word.
pub(crate) struct StoringWord<K, A> {
    asked: PhantomData<(K, A)>,
}

impl<K: Item, A: Arguments> Play<(), LinkedList<SeatView>> for StoringWord<K, A> {
    ghost use Rattle.store_steps.specs.Plays.{OfOne};
    ghost use Rattle.store_steps.specs.Tells.{Stores};

    ghost then = { λ step me found later. OfOne (Stores K.kind A.first A.second found) me later };
}

// `group`, and `piece`.
pub(crate) struct Publishing<A> {
    asked: PhantomData<A>,
}

impl<A: Arguments> Play<(), LinkedList<SeatView>> for Publishing<A> {
    ghost use Rattle.store_steps.specs.Plays.{OfOne, Publishes};

    ghost then = { λ step me found later. OfOne (Publishes A.group A.piece step.first) me later };
}

// `group`, `first` for the position and `second` for the length of a read.
pub(crate) struct Loading<A> {
    asked: PhantomData<A>,
}

impl<A: Arguments> Play<(), LinkedList<SeatView>> for Loading<A> {
    ghost use Rattle.store_steps.specs.Plays.{OfOne, Loads};

    ghost then = { λ step me found later. OfOne (Loads A.group A.first A.second found) me later };
}

// `first` for the item and `second` for its word.
pub(crate) struct Copying<K, A> {
    asked: PhantomData<(K, A)>,
}

impl<K: Item, A: Arguments> Play<(), LinkedList<SeatView>> for Copying<K, A> {
    ghost use Rattle.store_steps.specs.Plays.{OfOne, CopiesWord};

    ghost then = { λ step me found later. OfOne (CopiesWord K.kind A.first A.second found) me later };
}

pub(crate) struct LoadingNode<A> {
    asked: PhantomData<A>,
}

impl<A: NodeArguments> Play<(), LinkedList<SeatView>> for LoadingNode<A> {
    ghost use Rattle.store_steps.specs.Plays.{LoadsNode, OfOne};

    ghost then = { λ step me found later. OfOne (LoadsNode A.node A.last A.start A.len found) me later };
}

// `first` for the start of a slice and `second` for its length.
pub(crate) struct LoadingToServe<A> {
    asked: PhantomData<A>,
}

impl<A: Arguments> Play<(), LinkedList<SeatView>> for LoadingToServe<A> {
    ghost use Rattle.store_steps.specs.Plays.{LoadsToServe, OfOne};

    ghost then = { λ step me found later. OfOne (LoadsToServe A.first A.second found) me later };
}

// `group`, and `piece`.
pub(crate) struct LoadingToStore<A> {
    asked: PhantomData<A>,
}

impl<A: Arguments> Play<(), LinkedList<SeatView>> for LoadingToStore<A> {
    ghost use Rattle.store_steps.specs.Plays.{LoadsToStore, OfOne};

    ghost then = { λ step me found later. OfOne (LoadsToStore A.group A.piece found) me later };
}

// `piece`.
pub(crate) struct SettlingLength<A> {
    asked: PhantomData<A>,
}

impl<A: Arguments> Play<(), LinkedList<SeatView>> for SettlingLength<A> {
    ghost use Rattle.store_steps.specs.Plays.{OfOne, SettlesLength};

    ghost then = { λ step me found later. OfOne (SettlesLength A.piece found) me later };
}

// `group`.
pub(crate) struct ClaimingParents<A> {
    asked: PhantomData<A>,
}

impl<A: Arguments> Play<(), LinkedList<SeatView>> for ClaimingParents<A> {
    ghost use Rattle.store_steps.specs.Plays.{ClaimsParents, OfOne};

    ghost then = { λ step me found later. OfOne (ClaimsParents A.group step.first found) me later };
}

// `group`, and `piece`.
pub(crate) struct PublishingParents<A> {
    asked: PhantomData<A>,
}

impl<A: Arguments> Play<(), LinkedList<SeatView>> for PublishingParents<A> {
    ghost use Rattle.store_steps.specs.Plays.{OfOne, PublishesParents};

    ghost then = { λ step me found later. OfOne (PublishesParents A.group A.piece step.first) me later };
}

pub(crate) struct Answering;

impl Play<(), LinkedList<SeatView>> for Answering {
    ghost use Rattle.store_steps.specs.Plays.{LoadsLength, OfOne};

    ghost then = { λ step me found later. OfOne (LoadsLength found) me later };
}
