ghost use Rattle.std.specs.Prelude.{◌≡◌, ◌≢◌, ◌<◌, ◌++◌, ◌∷◌, ℕ, List, All, MatchOption, decimal};
ghost use Rattle.std.specs.Bool.{Decides};
ghost use Rattle.rw_sweep.specs.Limits.{most_configurations};
ghost use Rattle.rw_sweep.specs.Parts.{placed_line};
ghost use Rattle.rw_sweep.specs.PartLines.{IsPlaceField, comma};

use crate::grid::MAX_CONFIGURATIONS;
use itoa::Buffer;
use rw_trace::number;

/// The place before the first comma, and what stands behind that comma; None where there is none.
pub(crate) fn place(text: &[u8]) -> Option<(u64, &[u8])>
    ensures told { MatchOption result
        ((p : ℕ) (rest : List ℕ) → p < most_configurations → text.now ≢ placed_line p rest)
        (λ r. text.now ≡ placed_line r.0 r.1.now) }
    ensures within { MatchOption result (Unit {0}) (λ r. r.0 < most_configurations) }
{
    let (field, rest) = cut(text)?;
    let place = place_in(field)?;
    Some((place, rest))
}

/// What stands before the first comma, and what stands behind it.
fn cut(text: &[u8]) -> Option<(&[u8], &[u8])>
    ensures told { MatchOption result (All (λ b. b ≢ comma) text.now)
        (λ r. text.now ≡ r.0.now ++ comma ∷ r.1.now) }
    ensures first { MatchOption result (Unit {0}) (λ r. All (λ b. b ≢ comma) r.0.now) }
{
    let comma = text.iter().position(|byte| *byte == b',')?;
    Some((&text[..comma], &text[comma + 1..]))
}

/// The place that a field is, written as a table writes it; None where it is none.
pub(crate) fn place_in(field: &[u8]) -> Option<u64>
    ensures told { MatchOption result (¬ (IsPlaceField field.now)) (λ p. field.now ≡ decimal p) }
    ensures within { MatchOption result (Unit {0}) (λ p. p < most_configurations) }
{
    let place = number(field)?;
    if place >= MAX_CONFIGURATIONS {
        return None;
    }
    if !is_written(field, place) {
        return None;
    }
    Some(place)
}

/// Whether a field is a number as a table writes it.
fn is_written(field: &[u8], number: u64) -> bool
    ensures { Decides result (field.now ≡ decimal number) }
{
    let mut digits = Buffer::new();
    digits.format(number).as_bytes() == field
}
