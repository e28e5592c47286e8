// What is served of one piece alone.

ghost use Rattle.determined_stores.specs.OnePiece.{OnePieceIsAccepted};

use store_core::served_binds;

// One piece doesn't clash with itself: so an encoding that is served of one alone is accepted.
pub fn one_piece_is_accepted()
    ensures { OnePieceIsAccepted }
{
    served_binds();
}
