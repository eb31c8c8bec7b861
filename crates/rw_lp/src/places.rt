ghost use Rattle.std.specs.Prelude.{◌≡◌, ◌<◌, ◌≤◌, List, OnOk, length, slice_set, vec_len};
ghost use Rattle.std.specs.List.{swap_remove};

use std::alloc::AllocFailed;

/// Puts `item` where `swap_remove(place)` has just taken one out; all others stand as they did before.
///
/// For owners of several [`Lp`](crate::Lp)s: each call takes its process by value and gives it back.
///
/// # Errors
///
/// `AllocFailed`, with the item, where memory was refused.
pub fn put_back<T>(items: &mut Vec<T>, place: usize, item: T) -> Result<(), AllocFailed<T>>
    requires place { place ≤ vec_len items.old }
    ensures back { OnOk result ((before : List T) (taken : T) → place < length before
        → items.old.items ≡ swap_remove before place taken
        → items.new.items ≡ slice_set before place item) }
{
    let last = items.len();
    items.push(item)?;
    items.swap(place, last);
    Ok(())
}
