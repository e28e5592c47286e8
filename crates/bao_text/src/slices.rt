ghost use Rattle.std.specs.Prelude.{◌≡◌};
ghost use Rattle.bao_text.specs.NodeNames.{slice_names};
ghost use Rattle.bao_text.specs.Rest.{rest_of};

use crate::walk::Nodes;

/// Returns the nodes of the slice (`start`, `len`) of a blob of `length` bytes, in the order of its encoding.
/// It doesn't allocate.
pub fn nodes(length: u64, start: u64, len: u64) -> Nodes
    ensures { rest_of result ≡ slice_names length start len }
{
    Nodes::of_slice(length, start, len)
}
