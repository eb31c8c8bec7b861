ghost use Rattle.std.specs.Prelude.{◌≡◌};
ghost use Rattle.rw_world.specs.WorldState.{least_of_letters};

use rw_vt::Letter;

/// The least of `start` and the times of `letters`, in ticks.
pub fn least_of_letters<B>(start: u64, letters: &[Letter<B>]) -> u64
    ensures { result ≡ least_of_letters start letters.now }
{
    let mut least = start;
    for letter in letters {
        least = least.min(letter.event.time);
    }
    least
}
