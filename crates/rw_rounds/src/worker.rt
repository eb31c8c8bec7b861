ghost use Rattle.std.specs.Prelude.{◌≡◌, [], IfOk, slice_get, Some};
ghost use Rattle.rw_vt.specs.Words.{Position};
ghost use Rattle.rw_vt.specs.System.{rules};
ghost use Rattle.rw_lp.specs.Calls.{LogicalProcess};
ghost use Rattle.rw_lp.specs.Sound.{IsSoundOnceCollected, StartsWell};
ghost use Rattle.rw_rounds.specs.Turns.{Closes, IsFit, TookTurn, TookTurns};
ghost use Rattle.rw_rounds.specs.Working.{worker_of, IsFitAndSound};

use crate::inner::{Context, Inner};
use crate::plan::Plan;
use crate::processes::Processes;
use crate::round::Gate;
use crate::traffic::Traffic;
use rw_board::{Board, Seat};
use rw_exchange::Port;
use rw_lp::Lp;
use rw_vt::{Letter, Model as VtModel, Refusal};
use std::alloc::Global;
use std::marker::Model;

/// One worker of a round: it owns every process whose number is its own modulo the number of workers, a port and a
/// seat.
///
/// Contracts see what it holds: its number and its plan, its processes in order, the letters that are still to
/// arrive, those that a ring had no room for, those that failed its test, its port and its seat. A worker may move to
/// a thread of its own.
pub struct Worker<M: VtModel> {
    inner: Inner<M>,
    /// Before the first turn the letters that are on their way to the worker's processes; afterwards an empty list,
    /// whose memory each turn uses.
    at_hand: Vec<Letter<M::Body>>,
}

// By hand, so that it is proved here, and not in each crate above whose values have one.
impl<M: VtModel> Drop for Worker<M> {
    fn drop(self) {
        let Worker {
            inner: _,
            at_hand: _,
        } = self;
    }
}

/// What a worker leaves at the end of a round: see [`Worker::into_parts`].
#[derive(Drop)]
pub struct WorkerParts<M: VtModel> {
    /// The worker's processes in the order of their numbers.
    pub processes: Vec<Lp<M>>,
    /// The letters to other workers that a ring had no room for.
    pub kept: Vec<Letter<M::Body>>,
    /// The received letters that failed the worker's test.
    pub aside: Vec<Letter<M::Body>>,
    /// The worker's ends of its rings.
    pub port: Port<Letter<M::Body>>,
    /// Its seat at the board.
    pub seat: Seat,
    /// What the worker did: executions, undoings, letters received through rings, and letters
    /// that it keeps or set aside.
    pub traffic: Traffic,
}

impl<M: VtModel> Model for Worker<M> {
    ghost use Rattle.rw_rounds.specs.Turns.{WorkerState};

    ghost Value = { WorkerState M M.State M.Body };

    ghost view = { λ w. record {
      role = record {
        number = w.inner.number;
        plan = w.inner.plan;
        collected = w.inner.collected;
      };
      processes = w.inner.processes.items;
      inbox = w.at_hand.items;
      kept = w.inner.kept.items;
      aside = w.inner.aside.items;
      port = w.inner.port;
      seat = w.inner.seat;
    } };
}

impl<M: VtModel> Worker<M> {
    /// Worker `number` of a round, with its processes in order, the letters that are on their way to them, its port
    /// and its seat. `collected` is the greatest time collected, in ticks. Nothing is asked here: what has to hold of
    /// them is said where the worker takes a [`turn`](Self::turn). Takes no memory.
    pub fn new(
        alloc: Global,
        number: u32,
        plan: &Plan,
        processes: Vec<Lp<M>>,
        inbox: Vec<Letter<M::Body>>,
        port: Port<Letter<M::Body>>,
        seat: Seat,
        collected: u64,
    ) -> Worker<M>
        ensures is { result ≡ record {
          role = record { number = number; plan = plan.now; collected = collected };
          processes = processes.items;
          inbox = inbox.items;
          kept = [];
          aside = [];
          port = port;
          seat = seat;
        } }
    {
        let inner = Inner {
            number,
            plan: *plan,
            collected,
            processes: Processes::of(alloc, processes),
            kept: Vec::new(alloc),
            aside: Vec::new(alloc),
            port,
            seat,
            traffic: Traffic::default(),
        };
        Worker::of(inner, inbox)
    }

    /// The worker of this state, with the letters that are on their way to its processes. Takes no memory.
    pub(crate) fn of(inner: Inner<M>, inbox: Vec<Letter<M::Body>>) -> Worker<M>
        ensures is { result ≡ record (worker_of inner) { inbox = inbox.items } }
    {
        Worker {
            inner,
            at_hand: inbox,
        }
    }

    /// The worker's state, once its round is over, with what it did in counts. Takes no memory.
    pub(crate) fn into_inner(self) -> Inner<M>
        ensures processes { result.processes.items ≡ self.processes }
        ensures kept { result.kept.items ≡ self.kept }
        ensures aside { result.aside.items ≡ self.aside }
        ensures port { result.port ≡ self.port }
        ensures seat { result.seat ≡ self.seat }
    {
        let Worker {
            mut inner,
            at_hand: _,
        } = self;
        inner.traffic.kept = (inner.kept.len() as u64).wrapping_add(inner.aside.len() as u64);
        inner
    }

    /// Takes one turn, and gives how many events were executed, at most the plan's `batch`.
    ///
    /// The letters that are still to arrive do; kept letters are offered to their rings again; at most as many
    /// letters from each other worker as a ring has room for are taken up; and then events are executed, always the
    /// least pending one, while its time is below what the seat reads on the board plus the plan's `window`. Whatever
    /// a process gives out is dealt with right after: a letter to an own process arrives at once, another one is
    /// pushed into a ring, or kept where the ring has no room. The time of each letter that is pushed is noted on the
    /// board. It takes no lock and never waits.
    ///
    /// What is asked is of the worker alone, and holds again after:
    ///
    /// - its number is below the plan's `workers`, and the plan's `window` is at most the end of time;
    /// - its processes are all those of the model whose number is its own modulo `workers`, in order; each runs `model`
    ///   and has collected up to `collected`, so that its committed events are before that time, and what is processed,
    ///   pending or owed is not;
    /// - the letters that are to arrive are of valid events to these processes, and not before that time; those that it
    ///   keeps, of which a new worker has none, are to other processes;
    /// - the port has its number and joins as many workers as the plan has, and the seat belongs to the board.
    ///
    /// So whoever has the processes can have the worker: that each starts well formed is promised by the process itself
    /// ([`Lp::soundness`]), and nothing is asked of the processes of others.
    ///
    /// # Errors
    ///
    /// `Exhausted` where a process was to execute an event in a state that can take no further one, and `Memory` where
    /// memory was refused. The worker is then gone.
    pub fn turn(self, alloc: Global, model: &M, board: &Board) -> Result<(Worker<M>, u64), Refusal>
        requires fit { IsFit M.Model M.Body.cmp model.now self }
        requires board { self.seat.board ≡ board.now.board }
        ensures turn { IfOk result (λ r.
            TookTurn (rules M.Model M.Body.cmp model.now) self r.0 r.1) }
        ensures fit { IfOk result (λ r. IsFit M.Model M.Body.cmp model.now r.0) }
    {
        let mut worker = self;
        let context = Context {
            alloc,
            model,
            board,
        };
        // What every process promises.
        soundness(worker.inner.processes.as_slice());
        let executed = worker.inner.turn(&context, &mut worker.at_hand)?;
        Ok((worker, executed))
    }

    /// Takes `turns` turns, each through the gate: see [`turn`](Self::turn). The caller knows that the processes are sound.
    pub(crate) fn turns<G: Gate>(
        self,
        alloc: Global,
        model: &M,
        board: &Board,
        gate: &G,
        turns: u32,
    ) -> Result<Worker<M>, Refusal>
        requires fit { IsFitAndSound M.Model M.Body.cmp model.now self }
        requires board { self.seat.board ≡ board.now.board }
        ensures turns { IfOk result (λ w.
            TookTurns (rules M.Model M.Body.cmp model.now) turns self w) }
        ensures fit { IfOk result (IsFit M.Model M.Body.cmp model.now) }
        ensures board { IfOk result (λ w. w.seat.board ≡ board.now.board) }
    {
        let mut worker = self;
        let context = Context {
            alloc,
            model,
            board,
        };
        worker
            .inner
            .turns(&context, &mut worker.at_hand, gate, turns)?;
        Ok(worker)
    }

    /// Notes the least time of the worker's processes and the time of each kept letter, after its last turn. Takes no
    /// memory.
    pub fn close(self, board: &Board) -> Worker<M>
        requires board { self.seat.board ≡ board.now.board }
        ensures closes { Closes self result }
    {
        let mut worker = self;
        worker.inner.close(board);
        worker
    }

    /// What the worker leaves, when it is taken apart at the end of a round. Takes no memory.
    pub fn into_parts(self) -> WorkerParts<M>
        ensures processes { result.processes.items ≡ self.processes }
        ensures kept { result.kept.items ≡ self.kept }
        ensures aside { result.aside.items ≡ self.aside }
        ensures port { result.port ≡ self.port }
        ensures seat { result.seat ≡ self.seat }
    {
        let Inner {
            processes,
            kept,
            aside,
            port,
            seat,
            traffic,
            ..
        } = self.into_inner();
        WorkerParts {
            processes: processes.into_list(),
            kept,
            aside,
            port,
            seat,
            traffic,
        }
    }

    /// The worker's number, from 0. Takes no memory.
    pub fn number(&self) -> u32
        ensures number { result ≡ self.now.role.number }
    {
        self.inner.number
    }
}

/// Each process starts well, and is sound wherever it has collected, as [`Lp::soundness`] says. Does nothing.
fn soundness<M: VtModel>(processes: &[Lp<M>])
    ensures starts { (place : Position) (l : LogicalProcess M M.State M.Body)
        → slice_get processes.now place ≡ Some l → StartsWell M.Model l }
    ensures sound { (place : Position) (l : LogicalProcess M M.State M.Body)
        → slice_get processes.now place ≡ Some l → IsSoundOnceCollected M.Model M.Body.cmp l }
{
    for process in processes {
        process.soundness();
    }
}
