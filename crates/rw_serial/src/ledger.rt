ghost use Rattle.std.specs.Prelude.{◌≡◌, ◌<◌, ◌≤◌, ◌++◌, ℕ, [], ◌∷◌, false, true, List, IfOk, length, map, slice_index_or, slice_set, sum_by};
ghost use Rattle.rw_vt.specs.declared.event.Event.{Event};
ghost use Rattle.rw_serial.specs.Counts.{IsCountOf};

use rw_vt::Event;
use std::alloc::AllocError;

/// What a run keeps of the events that it executes, and how many they may be.
pub trait Ledger<B: Ord + Copy> {
    /// It stands for these journals, for each process the events that were entered, in order, and may have at most so many
    /// entries.
    ghost StandsFor: { Self → ℕ → List (List (Event B)) → Type 0 };

    /// Enters an event that is executed at its process, and answers whether there was room for it. Where memory is refused,
    /// nothing is said of the ledger.
    fn enter(&mut self, event: Event<B>) -> Result<bool, AllocError>
        requires { (limit : ℕ) × (journals : List (List (Event B)))
            × StandsFor self.old limit journals × (event.to < length journals) }
        ensures entered { IfOk result (λ entered. entered ≡ true
            → (limit : ℕ) (journals : List (List (Event B))) → event.to < length journals
            → StandsFor self.old limit journals → StandsFor self.new limit
            (slice_set journals event.to (slice_index_or journals event.to [] ++ event ∷ []))) }
        ensures full { IfOk result (λ entered. entered ≡ false
            → (limit : ℕ) (journals : List (List (Event B))) → StandsFor self.old limit journals
            → limit ≤ sum_by length journals) };
}

/// The journals whole. There is always room.
impl<B: Ord + Copy> Ledger<B> for Vec<Vec<Event<B>>> {
    ghost StandsFor = { λ kept _ journals. map (λ j. j.items) kept.items ≡ journals };

    fn enter(&mut self, event: Event<B>) -> Result<bool, AllocError>
        requires { (limit : ℕ) × (journals : List (List (Event B)))
            × (map (λ j. j.items) self.old.items ≡ journals) × (event.to < length journals) }
        ensures entered { IfOk result (λ entered. entered ≡ true
            → (limit : ℕ) (journals : List (List (Event B))) → event.to < length journals
            → map (λ j. j.items) self.old.items ≡ journals
            → map (λ j. j.items) self.new.items
            ≡ slice_set journals event.to (slice_index_or journals event.to [] ++ event ∷ [])) }
        ensures full { IfOk result (λ entered. entered ≡ false
            → (limit : ℕ) (journals : List (List (Event B)))
            → map (λ j. j.items) self.old.items ≡ journals → limit ≤ sum_by length journals) }
    {
        self[event.to as usize].push(event)?;
        Ok(true)
    }
}

/// No journals: of a run whose last states alone are asked for. There is always room, and it takes no memory.
#[derive(Drop)]
pub struct NoJournals;

impl<B: Ord + Copy> Ledger<B> for NoJournals {
    ghost StandsFor = { λ _ _ _. Unit {0} };

    fn enter(&mut self, event: Event<B>) -> Result<bool, AllocError>
        ensures entered { IfOk result (λ entered. entered ≡ true
            → (limit : ℕ) (journals : List (List (Event B))) → event.to < length journals
            → Unit {0} → Unit {0}) }
        ensures full { IfOk result (λ entered. entered ≡ false
            → (limit : ℕ) (journals : List (List (Event B))) → Unit {0}
            → limit ≤ sum_by length journals) }
    {
        Ok(true)
    }
}

/// No journals, but how many events were entered, and how many may be. It takes no memory.
#[derive(Drop)]
pub struct Count {
    pub entered: u64,
    limit: u64,
}

impl Count {
    /// No events yet, of at most so many.
    pub fn up_to(limit: u64) -> Count
        ensures { (result.entered ≡ 0) × (result.limit ≡ limit) }
    {
        Count { entered: 0, limit }
    }
}

impl<B: Ord + Copy> Ledger<B> for Count {
    ghost StandsFor = { λ count limit journals.
        IsCountOf count.entered count.limit limit journals };

    fn enter(&mut self, event: Event<B>) -> Result<bool, AllocError>
        requires { (limit : ℕ) × (journals : List (List (Event B)))
            × IsCountOf self.old.entered self.old.limit limit journals
            × (event.to < length journals) }
        ensures entered { IfOk result (λ entered. entered ≡ true
            → (limit : ℕ) (journals : List (List (Event B))) → event.to < length journals
            → IsCountOf self.old.entered self.old.limit limit journals
            → IsCountOf self.new.entered self.new.limit limit
            (slice_set journals event.to (slice_index_or journals event.to [] ++ event ∷ []))) }
        ensures full { IfOk result (λ entered. entered ≡ false
            → (limit : ℕ) (journals : List (List (Event B)))
            → IsCountOf self.old.entered self.old.limit limit journals
            → limit ≤ sum_by length journals) }
    {
        if self.entered >= self.limit {
            return Ok(false);
        }
        self.entered += 1;
        Ok(true)
    }
}
