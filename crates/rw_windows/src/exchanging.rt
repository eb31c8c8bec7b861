ghost use Rattle.std.specs.Prelude.{◌≡◌, ◌≢◌, ◌≤◌, [], IfOk, IfSome, OnOk, slice_set, true};
ghost use Rattle.rw_vt.specs.Words.{Position};
ghost use Rattle.rw_exchange.specs.Ports.{IsOther, received_from};
ghost use Rattle.rw_windows.specs.Batches.{last_bound};
ghost use Rattle.rw_windows.specs.Working.{HandedOver, IsAtWork, SameWorker};

use crate::batch::Batch;
use crate::waiting::{receive_waiting, send_waiting};
use crate::worker::Worker;
use rw_vt::{Model as VtModel, Refusal};
use std::alloc::{AllocError, Global};
use std::mem;
use std::snapshot::Snapshot;
use std::sync::Wait;

impl<M: VtModel> Worker<M> {
    /// Sends each other worker a batch: the events for it, and a lower bound on the times of all later ones. Answers whether all are
    /// still there.
    ///
    /// Later events are sent by what waits or by what is received later, so they are not before the lookahead after either.
    pub(crate) fn send_all<R: Wait>(
        &mut self,
        rt: &R,
        alloc: Global,
        model: &M,
    ) -> Result<bool, Refusal>
        requires at_work { IsAtWork M.Model M.Body.cmp model.now self.old }
        ensures at_work { OnOk result (IsAtWork M.Model M.Body.cmp model.now self.new) }
        ensures same { OnOk result (SameWorker self.old self.new) }
        ensures until { OnOk result (self.new.until ≡ self.old.until) }
        ensures waiting { OnOk result (self.new.waiting ≡ self.old.waiting) }
        ensures handed_over { IfOk result (λ there. there ≡ true → HandedOver self.new) }
    {
        let least = self.pending.least_time().unwrap_or(u64::MAX);
        let domain = &mut self.domain;
        domain.bound_out = domain.bound_out.max(
            least.min(domain.bound_in).saturating_add(domain.lookahead),
        );
        for to in 0..self.domain.workers {
            if to == self.domain.number {
                continue;
            }
            if !self.send_to(rt, alloc, model, to)? {
                return Ok(false);
            }
        }
        Ok(true)
    }

    /// Sends worker `to` its batch. Waits while the ring has no room. Answers whether all are still there; nothing is sent where
    /// not.
    fn send_to<R: Wait>(
        &mut self,
        rt: &R,
        alloc: Global,
        model: &M,
        to: u32,
    ) -> Result<bool, Refusal>
        requires at_work { IsAtWork M.Model M.Body.cmp model.now self.old }
        requires other { IsOther self.old.port to }
        ensures at_work { OnOk result (IsAtWork M.Model M.Body.cmp model.now self.new) }
        ensures same { OnOk result (SameWorker self.old self.new) }
        ensures rest { OnOk result ((self.new.until ≡ self.old.until)
            × (self.new.waiting ≡ self.old.waiting)) }
        ensures told { IfOk result (λ there. there ≡ true
            → self.new.outbox ≡ slice_set self.old.outbox to []) }
    {
        let events = take_list(alloc, &mut self.domain.outbox[to as usize])?;
        let batch = Batch {
            events,
            bound: self.domain.bound_out,
            model: Snapshot::of(model),
            workers: Snapshot::of(&self.domain.workers),
            to: Snapshot::of(&to),
        };
        match send_waiting(
            rt,
            &mut self.domain.port,
            &self.domain.parkers,
            to as usize,
            batch,
        ) {
            Ok(()) => Ok(true),
            Err(back) => {
                self.domain.outbox[to as usize] = back.events;
                Ok(false)
            }
        }
    }

    /// Receives one batch of each other worker. Answers whether all are still there.
    pub(crate) fn receive_all<R: Wait>(&mut self, rt: &R, model: &M) -> Result<bool, Refusal>
        requires at_work { IsAtWork M.Model M.Body.cmp model.now self.old }
        requires handed_over { HandedOver self.old }
        ensures at_work { OnOk result (IsAtWork M.Model M.Body.cmp model.now self.new) }
        ensures same { OnOk result (SameWorker self.old self.new) }
        ensures until { OnOk result (self.new.until ≡ self.old.until) }
        ensures handed_over { OnOk result (HandedOver self.new) }
    {
        let mut bound_in = u64::MAX;
        for from in 0..self.domain.workers {
            if from == self.domain.number {
                continue;
            }
            let Some(bound) = self.take_batch(rt, model, from)? else {
                return Ok(false);
            };
            bound_in = bound_in.min(bound);
        }
        self.domain.bound_in = self.domain.bound_in.max(bound_in);
        Ok(true)
    }

    /// Receives one batch of worker `from`, for which it waits, and answers its bound; `None` where another worker is gone.
    fn take_batch<R: Wait>(&mut self, rt: &R, model: &M, from: u32) -> Result<Option<u64>, Refusal>
        requires at_work { IsAtWork M.Model M.Body.cmp model.now self.old }
        requires other { IsOther self.old.port from }
        requires handed_over { HandedOver self.old }
        ensures at_work { OnOk result (IsAtWork M.Model M.Body.cmp model.now self.new) }
        ensures same { OnOk result (SameWorker self.old self.new) }
        ensures times { OnOk result ((self.new.until ≡ self.old.until)
            × (self.new.bound_in ≡ self.old.bound_in)) }
        ensures handed_over { OnOk result (HandedOver self.new) }
        ensures others { OnOk result ((v : Position) → v ≢ from
            → received_from self.new.port v ≡ received_from self.old.port v) }
        ensures bound { IfOk result (λ bound_in. IfSome bound_in (λ bound.
            bound ≤ last_bound (received_from self.new.port from))) }
    {
        let Some(batch) = receive_waiting(
            rt,
            &mut self.domain.port,
            &self.domain.parkers,
            from as usize,
        ) else {
            return Ok(None);
        };
        self.pending.extend(&batch.events)?;
        self.domain.received = self.domain.received.wrapping_add(batch.events.len() as u64);
        Ok(Some(batch.bound))
    }
}

/// Takes what is in a list, and leaves it empty, with room for half as much again: what comes next is likely to be about as
/// long.
fn take_list<T: Drop>(alloc: Global, list: &mut Vec<T>) -> Result<Vec<T>, AllocError>
    ensures taken { IfOk result (λ taken. taken.items ≡ list.old.items) }
    ensures none { OnOk result (list.new.items ≡ []) }
{
    let length = list.len();
    let room = Vec::with_capacity(alloc, length.saturating_add(length / 2))?;
    Ok(mem::replace(list, room))
}
