ghost use Rattle.std.specs.Prelude.{◌≡◌, ◌≤◌, replicate, take};

// The most zeros that are at hand: enough for a store of 7,650 chunks. A static has 16 MiB at most, and a build of Rattle's own back end keeps
// all of it in the program.
pub(crate) const ZEROS_LEN: usize = 1 << 20;

static ZEROS: [u64; ZEROS_LEN] = [0; ZEROS_LEN];

// The first so many of an array. It is a function, so that what the prover knows of the array's elements stays a variable.
fn front<const N: usize>(all: &'static [u64; N], count: usize) -> &'static [u64]
    requires { count ≤ N }
    ensures { result.now ≡ take count all.now }
{
    &all[..count]
}

// So many zeros, which take no memory.
pub(crate) fn zeros(count: usize) -> &'static [u64]
    requires { count ≤ 1048576 }
    ensures { result.now ≡ replicate count 0 }
{
    front(&ZEROS, count)
}
