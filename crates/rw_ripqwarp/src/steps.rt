ghost use Rattle.std.specs.Prelude.{◌≢◌, IfErr, IfOk};
ghost use Rattle.rw_ripqwarp.specs.Simulate.{IsJournalOf, IsRunFault};

use crate::mode::Mode;
use crate::rounds::why_it_stopped;
use rw_engine::{Start, Step, run_by_steps};
use rw_photo::{Config, Photo};
use rw_progress::Progress;
use rw_report::{SimFault, begin_events, beginning, journal};
use rw_vt::Model;
use std::alloc::Global;

/// The journal of a run by these steps: what they answer, and what each cache has committed after them.
pub(crate) fn steps_text<P: Progress>(
    alloc: Global,
    bytes: &[u8],
    config: &Config,
    steps: Vec<Step>,
    progress: &mut P,
) -> Result<Vec<u8>, SimFault>
    ensures text { IfOk result (λ text.
        IsJournalOf steps.items config.now bytes.now text.items) }
    ensures fault { IfErr result (IsRunFault (Mode.Journal steps) config.now bytes.now) }
    ensures unwritten { IfErr result (λ e. e ≢ SimFault.Output) }
{
    let (states, initial) = beginning(alloc, bytes, config)?;
    let photo = Photo::new(*config);
    begin_events(initial.as_slice(), progress);
    let start = Start {
        model: photo,
        states,
        initial,
    };
    match run_by_steps(alloc, start, &steps) {
        Ok((world, answers)) => {
            let text = journal(alloc, answers.as_slice(), &world, photo.processes())?;
            Ok(text)
        }
        Err(stop) => Err(why_it_stopped(stop)),
    }
}
