// The command line.

ghost use Rattle.determined_program.specs.Requests.{SameAnswer};

use bao_request::{Asked, parse};
use clap::Error;
use std::alloc::Global;

// Memory may run out at either. And of two kinds of fault clap's own contract doesn't say which comes: `help` with a word
// behind it is answered as help or as a command that isn't there, a word that no place takes as an argument or as a command
// that isn't there.
pub fn request_determined<'a>(
    alloc: Global,
    words: &'a [String],
) -> (Result<Asked<'a>, Error>, Result<Asked<'a>, Error>)
    ensures { SameAnswer result.0 result.1 }
{
    let one = parse(alloc, words);
    let other = parse(alloc, words);
    (one, other)
}
