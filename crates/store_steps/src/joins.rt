use atomic_table::{Join, Play, Split};
use std::collections::LinkedList;
use store_core::SeatView;

// The first name of a seat's only view splits, and the new seat gets what comes of it.
pub(crate) struct Parts;

impl Split<LinkedList<SeatView>> for Parts {
    ghost use Rattle.std.specs.Prelude.{[], ◌∷◌};
    ghost use Rattle.store_core.specs.Views.{split_first, split_second};
    ghost use Rattle.store_steps.specs.Grips.{first_of};

    ghost left = { λ views. split_first (first_of views) ∷ [] };

    ghost right = { λ views. split_second (first_of views) ∷ [] };
}

// The load before it, which tells that the new name is new.
pub(crate) struct Parting;

impl Play<(), LinkedList<SeatView>> for Parting {
    ghost use Rattle.store_steps.specs.Plays.{OfOne, PartsInTwo};

    ghost then = { λ step me found later. OfOne PartsInTwo me later };
}

// A load by which a seat sees all that was called.
pub(crate) struct LookingRound;

impl Play<(), LinkedList<SeatView>> for LookingRound {
    ghost use Rattle.store_core.specs.Knowledge.{LooksRound};
    ghost use Rattle.store_steps.specs.Plays.{OfOne};

    ghost then = { λ step me found later. OfOne LooksRound me later };
}

// A seat takes another's view in, and has both.
pub(crate) struct Both;

impl Join<LinkedList<SeatView>> for Both {
    ghost use Rattle.std.specs.Prelude.{[], ◌++◌};

    ghost both = { λ ours theirs. ours ++ theirs };

    ghost spent = { [] };
}

// The load by which two views of a seat become one.
pub(crate) struct Merging;

impl Play<(), LinkedList<SeatView>> for Merging {
    ghost use Rattle.store_steps.specs.Plays.{Merges, OfTwo};

    ghost then = { λ step me found later. OfTwo Merges me later };
}

// A seat with no view enters.
pub(crate) struct Entering;

impl Play<(), LinkedList<SeatView>> for Entering {
    ghost use Rattle.std.specs.Prelude.{◌≡◌, []};

    ghost then = { λ step me found later. later.0 ≡ [] };
}

// The load by which two views of a seat see one history.
pub(crate) struct Meeting;

impl Play<(), LinkedList<SeatView>> for Meeting {
    ghost use Rattle.store_steps.specs.Plays.{MeetsSeat, OfTwo};

    ghost then = { λ step me found later. OfTwo MeetsSeat me later };
}

// A seat leaves all but its first view to a new one.
pub(crate) struct Leaving;

impl Split<LinkedList<SeatView>> for Leaving {
    ghost use Rattle.std.specs.Prelude.{[], ◌∷◌};
    ghost use Rattle.store_steps.specs.Grips.{first_of};
    ghost use Rattle.store_steps.specs.Plays.{later_views};

    ghost left = { λ views. first_of views ∷ [] };

    ghost right = { later_views };
}
