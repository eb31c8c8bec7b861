// What is outstanding in a world.
use rw_photo::Photo;
use rw_world::{Lp, Parts};

/// Whether a process has executed an event that is later than one that is pending.
pub fn has_straggler(parts: &Parts<Photo>) -> bool {
    parts.processes.iter().any(is_behind)
}

/// Whether the process has executed an event that is later than one that is pending.
fn is_behind(process: &Lp<Photo>) -> bool {
    match (process.next(), process.processed().last()) {
        (Some(next), Some(last)) => next < last,
        _ => false,
    }
}

/// Whether an anti-message came before its message, which is then on its way.
pub fn has_debt(parts: &Parts<Photo>) -> bool {
    for letter in &parts.letters {
        let copies = match parts.processes.get(letter.event.to as usize) {
            Some(process) => process.debt_copies(&letter.event),
            None => 0,
        };
        if copies > 0 {
            return true;
        }
    }
    false
}

/// Whether an anti-message is on its way.
pub fn has_anti(parts: &Parts<Photo>) -> bool {
    parts.letters.iter().any(|letter| letter.anti)
}
