ghost use Rattle.std.specs.Prelude.{◌≡◌, ◌≤◌, ◌<◌, ◌≢◌, [], ◌∷◌, All, IfOk, OnOk, false, length, true};
ghost use Rattle.rw_windows.specs.Working.{HandedOver, IsAtWork, IsDealt, IsReordered, SameWorker};

use crate::domain::Domain;
use crate::share::Share;
use rw_serial::{Pending, Sorted};
use rw_vt::{Event, Model as VtModel, Refusal};
use std::alloc::{AllocError, Global};
use std::marker::Model;

/// How many batches of each other worker are left unread, where the lookahead has as many parts and one: so workers
/// need not be equally fast in each of them. More parts would be more batches, and gain little.
const UNREAD: u32 = 2;

/// One worker at work: its share of the run, of which what waits is in the order of execution.
///
/// A contract sees what it is and what it holds, as of its share (`ShareState`).
#[derive(Drop)]
pub(crate) struct Worker<M: VtModel> {
    /// What it has of the run beside what waits.
    pub(crate) domain: Domain<M>,
    /// What is still to be executed at its processes.
    pub(crate) pending: Pending<M::Body, Sorted<M::Body>>,
    /// How many batches of each other worker it has left unread.
    pub(crate) unread: u32,
    /// How many batches it has sent since it had nothing to do before the end, and could receive nothing either.
    pub(crate) idle: u32,
}

impl<M: VtModel> Model for Worker<M> {
    ghost use Rattle.std.specs.Prelude.{map};
    ghost use Rattle.rw_windows.specs.Working.{ShareState};

    ghost Value = { ShareState M M.State M.Body };

    ghost view = { λ w. record {
      number = w.domain.number;
      workers = w.domain.workers;
      end = w.domain.end;
      lookahead = w.domain.lookahead;
      starts = w.domain.starts.value.value.items;
      given = w.domain.given.value.items;
      states = w.domain.states.items;
      waiting = w.pending.events;
      reached = w.pending.time;
      port = w.domain.port;
      outbox = map (λ list. list.items) w.domain.outbox.items;
      until = w.domain.until;
      bound_in = w.domain.bound_in;
      bound_out = w.domain.bound_out;
    } };
}

impl<M: VtModel> Worker<M> {
    /// The worker of a share.
    pub(crate) fn of(alloc: Global, share: Share<M>) -> Result<Worker<M>, AllocError>
        ensures is { IfOk result (λ w. IsReordered share w) }
    {
        let Share { domain, events } = share;
        let pending = Pending::new(alloc, Sorted::new(events)?);
        Ok(Worker {
            domain,
            pending,
            unread: 0,
            idle: 0,
        })
    }

    /// Takes what is still to be executed.
    pub(crate) fn take_left(&mut self, alloc: Global) -> Result<Vec<Event<M::Body>>, AllocError>
        ensures left { IfOk result (λ left.
            IsReordered self.old (record self.new { waiting = left.items; reached = 0 })) }
    {
        self.pending.take_all(alloc)
    }

    /// The share that it leaves, with these events still to be executed.
    pub(crate) fn with_left(self, events: Vec<Event<M::Body>>) -> Share<M>
        ensures { result ≡ record self { waiting = events.items; reached = 0 } }
    {
        let Worker {
            domain,
            pending,
            ..
        } = self;
        drop(pending);
        Share { domain, events }
    }

    /// Whether it has executed all that is before the end, in the last window, and all workers have nothing to do before the
    /// end any more, by the batches that are read by now, its own among them. Each finds so after as many batches, so none
    /// waits for one that does not come.
    pub(crate) fn is_at_the_end(&self) -> bool {
        let domain = &self.domain;
        domain.until >= domain.end
            && domain.bound_in >= domain.end.saturating_add(domain.lookahead)
            && self.idle > self.lag()
    }

    /// Counts the batch that it has just sent, where that one says that it is idle.
    pub(crate) fn note_idle(&mut self)
        ensures same { self.new ≡ self.old }
    {
        if self.domain.bound_out >= self.domain.end.saturating_add(self.domain.lookahead) {
            self.idle = self.idle.saturating_add(1);
        }
    }

    /// Whether it leaves one more batch of each other worker unread.
    pub(crate) fn leaves_unread(&mut self) -> bool
        ensures same { self.new ≡ self.old }
    {
        if self.unread >= self.lag() {
            return false;
        }
        self.unread += 1;
        true
    }

    /// Moves the end of its window on: up to the bounds received and sent, not past the end, and by a part of the lookahead, counted
    /// from what waits.
    pub(crate) fn go_further(&mut self, model: &M)
        requires at_work { IsAtWork M.Model M.Body.cmp model.now self.old }
        requires handed_over { HandedOver self.old }
        ensures at_work { IsAtWork M.Model M.Body.cmp model.now self.new }
        ensures same { SameWorker self.old self.new }
        ensures handed_over { HandedOver self.new }
    {
        let parts = u64::from(self.lag()) + 1;
        let first = self.pending.least_time().unwrap_or(u64::MAX);
        let domain = &mut self.domain;
        let next = domain
            .until
            .max(first)
            .saturating_add(domain.lookahead.div_ceil(parts));
        let bound = domain
            .bound_in
            .min(domain.bound_out)
            .min(domain.end)
            .min(next);
        domain.until = domain.until.max(bound);
    }

    /// How many batches of each other worker it stays behind: less than the lookahead has ticks.
    fn lag(&self) -> u32 {
        let most = self.domain.lookahead.saturating_sub(1);
        if most < u64::from(UNREAD) {
            most as u32
        } else {
            UNREAD
        }
    }

    /// Executes the next event of the window for good, with no undo record, and answers whether there was one. What it sends
    /// is dealt out; `sent` is a list to work with.
    pub(crate) fn execute_next(
        &mut self,
        alloc: Global,
        model: &M,
        sent: &mut Vec<Event<M::Body>>,
    ) -> Result<bool, Refusal>
        requires at_work { IsAtWork M.Model M.Body.cmp model.now self.old }
        ensures at_work { OnOk result (IsAtWork M.Model M.Body.cmp model.now self.new) }
        ensures same { OnOk result (SameWorker self.old self.new) }
        ensures none { IfOk result (λ found. found ≡ false
            → All (λ a. self.new.until ≤ a.time) self.new.waiting) }
    {
        let mut next = None;
        self.pending.pop_before(self.domain.until, &mut next)?;
        let Some(event) = &next else {
            return Ok(false);
        };
        sent.clear();
        let place = (event.to / self.domain.workers) as usize;
        model.advance(alloc, event.to, &mut self.domain.states[place], event, sent)?;
        self.domain.executed = self.domain.executed.wrapping_add(1);
        self.deal(sent)?;
        Ok(true)
    }

    /// Deals out what an event sent: to its own processes, or to the outboxes.
    fn deal(&mut self, sent: &[Event<M::Body>]) -> Result<(), AllocError>
        requires number { self.old.number < self.old.workers }
        requires lists { length self.old.outbox ≡ self.old.workers }
        requires later { All (λ e. self.old.reached < e.time) sent.now }
        ensures dealt { OnOk result (IsDealt self.old self.new sent.now) }
    {
        for event in sent {
            self.deal_one(*event)?;
        }
        Ok(())
    }

    /// Deals out one event.
    fn deal_one(&mut self, event: Event<M::Body>) -> Result<(), AllocError>
        requires number { self.old.number < self.old.workers }
        requires lists { length self.old.outbox ≡ self.old.workers }
        requires later { self.old.reached < event.time }
        ensures dealt { OnOk result (IsDealt self.old self.new (event ∷ [])) }
    {
        let to = event.to % self.domain.workers;
        if to == self.domain.number {
            self.pending.put(event)?;
            return Ok(());
        }
        self.domain.outbox[to as usize].push(event)?;
        Ok(())
    }
}
