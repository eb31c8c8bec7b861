ghost use Rattle.std.specs.Prelude.{◌≡◌, ◌+◌, ◌<◌, ◌++◌, codes, decimal, length, IfOk, OnOk};
ghost use Rattle.rw_vt.specs.System.{flatten, map_from};
ghost use Rattle.rw_report.specs.Journal.{answer_line, body_words, event_line, event_lines, fault_words, finished_line, journal_text};
ghost use Rattle.rw_world.specs.WorldState.{floor, is_finished};

use crate::report_text::write_count;
use rw_photo::{Body, Photo};
use rw_vt::{Event, NoMemory};
use rw_world::{Answer, StepFault, World};
use std::alloc::Global;

/// The journal of a world of so many processes, to which steps with these answers led: a line for each refused step, a
/// line for each committed event, process by process, then the floor, and whether nothing is left to do.
pub fn journal(
    alloc: Global,
    answers: &[Answer],
    world: &World<Photo>,
    processes: u32,
) -> Result<Vec<u8>, NoMemory>
    requires processes { length world.now.world.processes ≡ processes }
    requires caches { world.now.model.config.edges + world.now.model.config.origins ≡ processes }
    ensures { IfOk result (λ text. text.items ≡ journal_text answers.now world.now.world) }
{
    let mut text = Vec::new(alloc);
    write_answers(&mut text, answers)?;
    write_processes(&mut text, world, processes)?;
    write_count(&mut text, b"floor ", world.floor())?;
    text.push(b'\n')?;
    text.extend_from_slice(finished_line(world.finished()))?;
    Ok(text)
}

/// The last line.
fn finished_line(finished: bool) -> &'static [u8]
    ensures { result.now ≡ finished_line finished }
{
    if finished {
        b"finished yes\n"
    } else {
        b"finished no\n"
    }
}

/// A line for each refused step, by its number.
fn write_answers(text: &mut Vec<u8>, answers: &[Answer]) -> Result<(), NoMemory>
    ensures { OnOk result
        (text.new.items ≡ text.old.items ++ flatten (map_from 0 answer_line answers.now)) }
{
    for (step, answer) in answers.iter().enumerate() {
        write_answer(text, step as u64, *answer)?;
    }
    Ok(())
}

/// The line of a step, if it was refused.
fn write_answer(text: &mut Vec<u8>, step: u64, answer: Answer) -> Result<(), NoMemory>
    ensures { OnOk result (text.new.items ≡ text.old.items ++ answer_line step answer) }
{
    let Answer::Refused(fault) = answer else {
        return Ok(());
    };
    write_count(text, b"step ", step)?;
    text.extend_from_slice(b" refused ")?;
    text.extend_from_slice(fault_words(fault))?;
    text.push(b'\n')?;
    Ok(())
}

/// A refusal by its number and its name.
fn fault_words(fault: StepFault) -> &'static [u8]
    ensures { result.now ≡ fault_words fault }
{
    match fault {
        StepFault::NoSuchProcess => b"1 NoSuchProcess",
        StepFault::NoSuchLetter => b"2 NoSuchLetter",
        StepFault::NothingPending => b"3 NothingPending",
        StepFault::Straggler => b"4 Straggler",
        StepFault::NothingToUndo => b"5 NothingToUndo",
        StepFault::StillDone => b"6 StillDone",
        StepFault::AboveFloor => b"7 AboveFloor",
    }
}

/// What each process has committed.
fn write_processes(text: &mut Vec<u8>, world: &World<Photo>, processes: u32) -> Result<(), NoMemory>
    requires processes { length world.now.world.processes ≡ processes }
    requires caches { world.now.model.config.edges + world.now.model.config.origins ≡ processes }
    ensures { OnOk result
        (text.new.items ≡ text.old.items
        ++ flatten (map_from 0 (λ p x. event_lines p x.committed) world.now.world.processes)) }
{
    for process in 0..processes {
        write_events(text, process, world.journal(process))?;
    }
    Ok(())
}

/// A line for each of these events of a process.
fn write_events(text: &mut Vec<u8>, process: u32, events: &[Event<Body>]) -> Result<(), NoMemory>
    ensures { OnOk result (text.new.items ≡ text.old.items ++ event_lines process events.now) }
{
    for event in events {
        write_event(text, process, event)?;
    }
    Ok(())
}

/// The line of an event of a process.
fn write_event(text: &mut Vec<u8>, process: u32, event: &Event<Body>) -> Result<(), NoMemory>
    ensures { OnOk result (text.new.items ≡ text.old.items ++ event_line process event.now) }
{
    write_count(text, b"process ", u64::from(process))?;
    write_count(text, b" time ", event.time)?;
    write_count(text, b" source ", u64::from(event.source))?;
    write_count(text, b" number ", event.number)?;
    text.push(b' ')?;
    write_body(text, event.body)?;
    text.push(b'\n')?;
    Ok(())
}

/// What happens, to which object, of which size if one is said, and for a miss and a drop from which edge.
fn write_body(text: &mut Vec<u8>, body: Body) -> Result<(), NoMemory>
    ensures { OnOk result (text.new.items ≡ text.old.items ++ body_words body) }
{
    match body {
        Body::Request { object, size } => write_object(text, b"request ", object, size),
        Body::Miss { object, size, edge } => {
            write_object(text, b"miss ", object, size)?;
            write_count(text, b" ", u64::from(edge))
        }
        Body::Fill { object, size } => write_object(text, b"fill ", object, size),
        Body::Purge { object } => write_count(text, b"purge ", object),
        Body::Drop { object, edge } => {
            write_count(text, b"drop ", object)?;
            write_count(text, b" ", u64::from(edge))
        }
        Body::Clear { object } => write_count(text, b"clear ", object),
    }
}

/// A word, an object and its size.
fn write_object(text: &mut Vec<u8>, word: &[u8], object: u64, size: u64) -> Result<(), NoMemory>
    ensures { OnOk result
        (text.new.items ≡ text.old.items ++ word.now ++ decimal object ++ codes " "
        ++ decimal size) }
{
    write_count(text, word, object)?;
    write_count(text, b" ", size)
}
