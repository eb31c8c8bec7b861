ghost use Rattle.std.specs.Prelude.{◌≡◌, ◌≢◌, ◌<◌, ◌^◌, [], ◌∷◌, length, cond, nat_lt, position, Ok, Err, Some, None, IfOk, IfErr, IfSome, MatchOption};
ghost use Rattle.rw_report.specs.Schedule.{is_blank, schedule_of, step_of_letter, step_of_word, words_of};
ghost use Rattle.rw_report.specs.declared.schedule_text.ScheduleFault.TheVariants.{Memory};

use rw_trace::number;
use rw_world::Step;
use std::alloc::Global;

/// Why a text is no schedule.
#[derive(Debug, Drop, PartialEq, Eq, thiserror::Error)]
pub enum ScheduleFault {
    /// The word of this number, from 0, is the first that says no step.
    #[error("schedule: word {0}")]
    Word(u64),
    /// A request for memory was refused.
    #[error("memory")]
    Memory,
}

/// The steps of a schedule: words parted by single blanks, each a letter and 1 to 20 digits. `E`, `U` and `L` execute,
/// undo and undo lazily at a process, a number below 2^32; `D` delivers a letter and `C` collects to a time, numbers below
/// 2^64. The empty text is the empty schedule.
///
/// # Errors
///
/// [`ScheduleFault::Word`] with the number of the first bad word, and [`ScheduleFault::Memory`] only where memory was
/// refused.
pub fn schedule(alloc: Global, text: &str) -> Result<Vec<Step>, ScheduleFault>
    ensures steps { IfOk result (λ steps. schedule_of text.now ≡ Ok steps.items) }
    ensures word { IfErr result (λ fault. fault ≢ Memory → schedule_of text.now ≡ Err fault) }
{
    let mut steps = Vec::new(alloc);
    if text.is_empty() {
        return Ok(steps);
    }
    let mut left = Some(text.as_bytes());
    let mut index = 0;
    while let Some(text) = left {
        let (word, rest) = first_word(text);
        let Some(step) = step(word) else {
            return Err(ScheduleFault::Word(index));
        };
        if steps.push(step).is_err() {
            return Err(ScheduleFault::Memory);
        }
        index += 1;
        left = rest;
    }
    Ok(steps)
}

/// The first word of a text, and what is behind the blank that ends it, if one does.
fn first_word(text: &[u8]) -> (&[u8], Option<&[u8]>)
    ensures words { MatchOption result.1 (words_of text.now ≡ result.0.now ∷ [])
        (λ rest. words_of text.now ≡ result.0.now ∷ words_of rest.now) }
    ensures shorter { IfSome result.1 (λ rest. length rest.now < length text.now) }
{
    match first_blank(text) {
        Some(end) => (&text[..end], Some(&text[end + 1..])),
        None => (text, None),
    }
}

/// Where the first blank of a text stands.
fn first_blank(text: &[u8]) -> Option<usize>
    ensures found { result ≡ position is_blank text.now }
    ensures within { IfSome result (λ at. at < length text.now) }
{
    text.iter().position(|byte| *byte == b' ')
}

/// The step that a word says.
#[tactic(auto, unfolding(crate::specs::Schedule::step_of_word))]
fn step(word: &[u8]) -> Option<Step>
    ensures { result ≡ step_of_word word.now }
{
    let [letter, digits @ ..] = word else {
        return None;
    };
    step_of_letter(*letter, number(digits)?)
}

/// The step that a letter and a number say.
fn step_of_letter(letter: u8, number: u64) -> Option<Step>
    ensures { result ≡ step_of_letter letter (Some number) }
{
    match letter {
        b'E' => Some(Step::Execute(process(number)?)),
        b'U' => Some(Step::Undo(process(number)?)),
        b'L' => Some(Step::UndoLazily(process(number)?)),
        b'D' => Some(Step::Deliver(number)),
        b'C' => Some(Step::Collect(number)),
        _ => None,
    }
}

/// The process of a number, if it is below 2^32.
fn process(number: u64) -> Option<u32>
    ensures { result ≡ cond (nat_lt number (2 ^ 32)) (Some number) None }
{
    u32::try_from(number).ok()
}
