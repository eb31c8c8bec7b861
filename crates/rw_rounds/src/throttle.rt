ghost use Rattle.std.specs.Prelude.{◌≡◌};
ghost use Rattle.rw_rounds.specs.Plans.{IsInRanges};

use crate::plan::Plan;
use crate::segment::Reached;

/// Controls the optimism of a run in rounds: how wide the window and how large the batch of the next round are.
///
/// A round is one burst: what its workers execute before they receive from one another may be undone, and how far the floor
/// moves in it does not depend on that, but on how often events wait for one another. So the window is the mean of what the
/// floor moved in the last few rounds, times a gain that falls by a quarter where more than a quarter of the executions were
/// undone, and grows by an eighth otherwise. The batch allows a round to commit twice as many events as the last ones did.
///
/// The plan bounds both, and the first round is by the plan as it is. No theorem rests on the throttle.
#[derive(Clone, Copy)]
pub struct Throttle {
    /// How far the floor moves in a round, in ticks: a mean, of which the last round is a quarter. `None` before the first
    /// round.
    advance: Option<u64>,
    /// How many events a round executes that are not undone in it: a mean, of which the last round is a half.
    useful: u64,
    /// The ratio of the window to `advance`, in 64ths: 32 to 128.
    gain: u64,
}

impl Throttle {
    /// The throttle before the first round. Takes no memory.
    pub fn new() -> Throttle {
        Throttle {
            advance: None,
            useful: 0,
            gain: 64,
        }
    }

    /// The plan of the next round, within `bounds`. Takes no memory.
    pub(crate) fn plan(&self, bounds: &Plan) -> Plan
        requires { IsInRanges bounds.now }
        ensures ranges { IsInRanges result }
        ensures workers { result.workers ≡ bounds.now.workers }
    {
        let Some(advance) = self.advance else {
            return *bounds;
        };
        let window = advance.saturating_mul(self.gain) / 64;
        let turns = u64::from(bounds.workers) * u64::from(bounds.turns);
        let batch = (self.useful.saturating_mul(2) / turns).saturating_add(1);
        Plan {
            window: window.max(1).min(bounds.window),
            batch: batch.min(u64::from(bounds.batch)) as u32,
            ..*bounds
        }
    }

    /// Updates the means and the gain after a round that led a run from `before` to `after`. A plan of one worker stays as it
    /// is. Takes no memory.
    pub(crate) fn note_round(&mut self, bounds: &Plan, before: &Reached, after: &Reached) {
        if bounds.workers == 1 {
            return;
        }
        let moved = after.floor.saturating_sub(before.floor);
        let executed = after.traffic.executed.wrapping_sub(before.traffic.executed);
        let undone = after.traffic.undone.wrapping_sub(before.traffic.undone);
        self.note(moved, executed, undone);
    }

    /// Updates the means and the gain after a round whose floor moved by `moved` ticks, and in which of `executed` events
    /// `undone` were undone.
    fn note(&mut self, moved: u64, executed: u64, undone: u64) {
        let useful = executed.saturating_sub(undone);
        match self.advance {
            None => {
                self.advance = Some(moved);
                self.useful = useful;
            }
            Some(advance) => {
                self.advance = Some(advance.saturating_mul(3).saturating_add(moved) / 4);
                self.useful = self.useful.saturating_add(useful) / 2;
            }
        }
        self.gain = if undone.saturating_mul(4) > executed {
            (self.gain.saturating_mul(3) / 4).max(32)
        } else {
            self.gain.saturating_add(self.gain / 8).min(128)
        };
    }
}
