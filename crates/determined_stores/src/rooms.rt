// Of which groups a piece has parents.

ghost use Rattle.std.specs.Prelude.{◌≡◌, ◌<◌, ℕ, false};
ghost use Rattle.std.specs.List.{slice_index_or};

use bao_check::Checked;
use gather::boundary_groups;

pub fn boundary_groups_determined(piece: &Checked<'_>) -> ([bool; 1024], [bool; 1024])
    ensures { (group : ℕ) → group < 1024 → slice_index_or result.0 group false ≡ slice_index_or result.1 group false }
{
    (boundary_groups(piece), boundary_groups(piece))
}
