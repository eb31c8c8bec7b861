ghost use Rattle.std.specs.Prelude.{◌≡◌, ◌≢◌, ◌+◌, ◌*◌, ◌<◌, ◌≤◌, ◌∷◌, [], None, IfOk, length, map, slice_get, slice_index_or};
ghost use Rattle.rw_vt.specs.Words.{Position};
ghost use Rattle.rw_pool.specs.Shares.{of_shares};

use rw_vt::{NoMemory, empty_lists};
use std::alloc::Global;
use std::collections::VecDeque;

/// Deals a list out: each worker's share of it, in order. Item q goes to worker q modulo `workers`.
pub fn deal_out<T: Drop>(alloc: Global, workers: u32, list: Vec<T>) -> Result<Vec<Vec<T>>, NoMemory>
    requires workers { 1 ≤ workers }
    ensures count { IfOk result (λ shares. length shares.items ≡ workers) }
    ensures each { IfOk result (λ shares. (i place : Position) → i < workers
        → slice_get (slice_index_or (map (λ h. h.items) shares.items) i []) place
        ≡ slice_get list.items (i + place * workers)) }
{
    let mut shares = empty_lists(alloc, workers as usize)?;
    let mut next = 0;
    for item in list {
        shares[next].push(item)?;
        next = (next + 1) % workers as usize;
    }
    Ok(shares)
}

/// Joins what was dealt out: the first `count` items in the order of the list, of which the shares give one each, round and
/// round.
pub fn join<T: Drop>(
    alloc: Global,
    count: usize,
    shares: VecDeque<VecDeque<T>>,
) -> Result<Vec<T>, NoMemory>
    requires some { 0 < length shares.items }
    requires complete { (q : Position) → q < count
        → of_shares (length shares.items) (map (λ h. h.items) shares.items) q ≡ None → ⊥ }
    ensures count { IfOk result (λ all. length all.items ≡ count) }
    ensures each { IfOk result (λ all. (q : Position) → q < count
        → slice_get all.items q
        ≡ of_shares (length shares.items) (map (λ h. h.items) shares.items) q) }
{
    let mut shares = shares;
    let mut list = Vec::with_capacity(alloc, count)?;
    for _item in 0..count {
        let mut share = first_of(&mut shares);
        list.push(first_of(&mut share))?;
        shares.push_back(share)?;
    }
    Ok(list)
}

/// Takes the first item, of which there is one. Takes no memory.
pub fn first_of<T: Drop>(items: &mut VecDeque<T>) -> T
    requires some { items.old.items ≢ [] }
    ensures first { items.old.items ≡ result ∷ items.new.items }
{
    let Some(first) = items.pop_front() else {
        unreachable!()
    };
    first
}
