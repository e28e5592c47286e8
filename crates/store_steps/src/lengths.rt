ghost use Rattle.std.specs.Prelude.{◌≡◌};
ghost use Rattle.store_core.specs.Events.{settling};
ghost use Rattle.store_steps.specs.Plays.{length_in};

use store_core::Settling;

// The length that the length word stands for: 0 is none, else it is the length plus 1.
pub(crate) fn length_in(word: u64) -> Option<u64>
    ensures { result ≡ length_in word }
{
    word.checked_sub(1)
}

// What a length meets where this one was recorded.
pub(crate) fn settling(recorded: Option<u64>, length: u64) -> Settling
    ensures { result ≡ settling recorded length }
{
    match recorded {
        None => Settling::Settled,
        Some(known) => {
            if known == length {
                Settling::Known
            } else {
                Settling::Differs
            }
        }
    }
}
