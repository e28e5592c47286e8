use atomic_table::TableRule;
use std::collections::LinkedList;
use store_core::{Fixed, SeatView};

// The rule of the table. Its key is the store's root, mode and capacity.
pub(crate) struct Law;

impl TableRule<(), LinkedList<SeatView>, Fixed> for Law {
    ghost use Rattle.std.specs.Prelude.{[], ◌∷◌};
    ghost use Rattle.store_core.specs.Knowledge.{opening_view};
    ghost use Rattle.store_steps.specs.Rule.{RuleHolds};

    ghost holds = { RuleHolds };

    ghost first = { λ fixed. opening_view fixed ∷ [] };
}
