ghost use Rattle.std.specs.Prelude.{◌≡◌, ◌<◌, IfOk};
ghost use Rattle.rw_world.specs.Drawn.{drawn_steps, mixed_steps, next_number, step_of, steps_drawn, undoing_of};

use crate::step::Step;
use rw_vt::NoMemory;
use std::alloc::Global;

/// Draws a schedule: `count` steps of a world of `processes` processes, at least one, by a linear congruential generator
/// (Knuth's MMIX constants) that starts from `seed`. Three of eight steps are executions, one is an undoing, three are
/// deliveries of letters 0 to 7 and one a collection up to a time below 64, in ticks.
pub fn draw(alloc: Global, seed: u64, count: u64, processes: u32) -> Result<Vec<Step>, NoMemory>
    requires processes { 0 < processes }
    ensures { IfOk result (λ v. v.items ≡ drawn_steps processes seed count) }
{
    draw_steps(alloc, seed, count, processes, false)
}

/// The same, but about half of the undoings are lazy.
pub fn draw_mixed(
    alloc: Global,
    seed: u64,
    count: u64,
    processes: u32,
) -> Result<Vec<Step>, NoMemory>
    requires processes { 0 < processes }
    ensures { IfOk result (λ v. v.items ≡ mixed_steps processes seed count) }
{
    draw_steps(alloc, seed, count, processes, true)
}

/// Draws `count` steps; `mixed` says whether undoings are lazy too.
fn draw_steps(
    alloc: Global,
    seed: u64,
    count: u64,
    processes: u32,
    mixed: bool,
) -> Result<Vec<Step>, NoMemory>
    requires processes { 0 < processes }
    ensures { IfOk result (λ v. v.items ≡ steps_drawn mixed processes seed count) }
{
    let mut steps = Vec::new(alloc);
    let mut number = seed;
    for _step in 0..count {
        number = next_number(number);
        steps.push(step_of((number >> 33) as u32, processes, mixed))?;
    }
    Ok(steps)
}

/// The number that the generator gives after `number`.
fn next_number(number: u64) -> u64
    ensures { result ≡ next_number number }
{
    number
        .wrapping_mul(6364136223846793005)
        .wrapping_add(1442695040888963407)
}

/// The step that a drawn value stands for.
fn step_of(value: u32, processes: u32, mixed: bool) -> Step
    requires { 0 < processes }
    ensures { result ≡ step_of mixed processes value }
{
    let rest = value / 8;
    match value % 8 {
        0..=2 => Step::Execute(rest % processes),
        3 => undoing_of(rest, processes, mixed),
        4..=6 => Step::Deliver(u64::from(rest % 8)),
        _ => Step::Collect(u64::from(rest % 64)),
    }
}

/// The undoing that a number stands for. Where they are `mixed`, it is a lazy one if the number is odd.
fn undoing_of(number: u32, processes: u32, mixed: bool) -> Step
    requires { 0 < processes }
    ensures { result ≡ undoing_of mixed processes number }
{
    if !mixed {
        return Step::Undo(number % processes);
    }
    let process = number / 2 % processes;
    if number % 2 == 0 {
        Step::Undo(process)
    } else {
        Step::UndoLazily(process)
    }
}
