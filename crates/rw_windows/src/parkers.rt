ghost use Rattle.std.specs.Prelude.{◌≡◌, IfOk, length};

use crossbeam_channel::{Receiver, Sender};
use rw_vt::NoMemory;
use std::alloc::Global;
use std::sync::Wait;

/// A worker's parkers: it parks while nothing comes from another worker, and unparks another one when it has sent something there. Both
/// lists are in the order of the workers' numbers.
///
/// A worker that is unparked before it parks does not park, so none sleeps while something waits for it, and none parks for a
/// worker that is gone. Contracts do not mention parkers: they only save polling.
#[derive(Drop)]
pub(crate) struct Parkers {
    to: Vec<Sender<()>>,
    from: Vec<Receiver<()>>,
}

impl Parkers {
    /// Unparks worker `to`, if it is parked for this one.
    pub(crate) fn unpark<R: Wait>(&self, rt: &R, to: usize) {
        if let Some(bell) = self.to.get(to) {
            // It fails where the other worker is unparked already, or gone.
            let _ = bell.try_send(rt, ());
        }
    }

    /// Parks until worker `from` unparks this one, or is gone.
    pub(crate) fn park<R: Wait>(&self, rt: &R, from: usize) {
        if let Some(bell) = self.from.get(from) {
            // It fails where the other worker is gone; the rings show that too.
            let _ = bell.recv(rt);
        }
    }
}

/// The parkers of `workers` workers, in the order of their numbers.
///
/// # Errors
///
/// [`NoMemory`] where memory was refused.
pub(crate) fn open_parkers(alloc: Global, workers: usize) -> Result<Vec<Parkers>, NoMemory>
    ensures count { IfOk result (λ all. length all.items ≡ workers) }
{
    let mut all = Vec::with_capacity(alloc, workers)?;
    for _ in 0..workers {
        all.push_reserved(Parkers {
            to: Vec::new(alloc),
            from: Vec::new(alloc),
        });
    }
    for from in 0..workers {
        for to in 0..workers {
            let (sender, receiver) = crossbeam_channel::bounded(alloc, 1)?;
            all[from].to.push(sender)?;
            all[to].from.push(receiver)?;
        }
    }
    Ok(all)
}
