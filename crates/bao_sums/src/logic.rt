// Steps of the loops over files and lines, as calls.

ghost use Rattle.std.specs.Prelude.{◌≡◌, ◌<◌, ◌&&◌, length, map, slice_index_or};
ghost use Rattle.bao_sums.specs.Found.{sum_of};
ghost use Rattle.bao_sums.specs.Hashed.{paths_of};

use crate::parsing::SumLine;

/// Returns whether both hold.
pub(crate) fn both(one: bool, other: bool) -> bool
    ensures { result ≡ (one && other) }
{
    one && other
}

/// Returns the path with this index.
pub(crate) fn path_at<'a>(files: &[&'a str], index: usize) -> &'a str
    requires { index < length files.now }
    ensures { slice_index_or (paths_of files.now) index result.now ≡ result.now }
{
    files[index]
}

/// Returns the line with this index.
pub(crate) fn line_at(lines: &[SumLine], index: usize) -> &SumLine
    requires { index < length lines.now }
    ensures { slice_index_or (map sum_of lines.now) index (sum_of result.now) ≡ sum_of result.now }
{
    &lines[index]
}
