ghost use Rattle.std.specs.Prelude.{◌≡◌, [], IfOk, map, replicate};

use std::alloc::{AllocError, Global};

/// `count` empty lists.
///
/// # Errors
///
/// [`AllocError`] where memory was refused.
pub fn empty_lists<T: Drop>(alloc: Global, count: usize) -> Result<Vec<Vec<T>>, AllocError>
    ensures { IfOk result (λ lists. map (λ l. l.items) lists.items ≡ replicate count []) }
{
    let mut lists = Vec::with_capacity(alloc, count)?;
    for _list in 0..count {
        lists.push(Vec::new(alloc))?;
    }
    Ok(lists)
}
