ghost use Rattle.std.specs.Prelude.{◌≡◌, ◌≤◌, IfOk, OnOk, [], ◌++◌, length, true, ◌<◌, ◌+◌, ◌^◌, ◌&&◌, nat_le};
ghost use Rattle.rw_vt.specs.Limits.{end_of_time};
ghost use Rattle.rw_trace.specs.Limits.{greatest_size};
ghost use Rattle.rw_ripq.specs.Limits.{exhaustion};
ghost use Rattle.rw_ripq.specs.Work.{no_tally};
ghost use Rattle.rw_photo.specs.Cache.{IsWellFormed, is_edge, shape_at, start};
ghost use Rattle.rw_photo.specs.Deeds.{HasHappened};
ghost use Rattle.rw_photo.specs.Events.{clears_of, miss_happening, fill_happening, happening, purge_happening, is_origin, is_valid, object_of, origin_of, request_happening};

use crate::body::Body;
use crate::cache::CacheState;
use crate::config::Config;
use crate::undo::Undo;
use rw_ripq::{Change, EXHAUSTED, Marks, NoMarks, Policy, Tally};
use rw_trace::{MAX_SIZE, MAX_TIME};
use rw_vt::{Event, Lookahead, Model as VtModel, NoMemory, Refusal};
use std::alloc::Global;

/// The model of the caches of a configuration: processes 0 to `edges - 1` are edges, then come the origins.
#[derive(Clone, Copy)]
pub struct Photo {
    /// The caches and the delays between them.
    pub config: Config,
}

impl Photo {
    /// The model of a configuration. Takes no memory.
    pub fn new(config: Config) -> Photo
        ensures { result.config ≡ config }
    {
        Photo { config }
    }

    /// The state in which process `process` starts: an empty queue in the shape of its kind, nothing awaited, nothing
    /// sent, nothing counted.
    ///
    /// # Errors
    ///
    /// `NoMemory` only where memory was refused.
    pub fn start(&self, alloc: Global, process: u32) -> Result<CacheState, NoMemory>
        requires { process < self.now.config.edges + self.now.config.origins }
        ensures state { IfOk result (λ s. s ≡ start self.now.config process) }
        ensures well_formed { IfOk result (λ s. IsWellFormed self.now.config process s) }
    {
        let shape = if self.is_edge(process) {
            self.config.edge_shape
        } else {
            self.config.origin_shape
        };
        CacheState::new(alloc, shape)
    }

    /// Whether a process is an edge.
    fn is_edge(&self, process: u32) -> bool
        ensures { result ≡ is_edge self.now.config process }
    {
        process < self.config.edges
    }

    /// Whether a process is an origin.
    fn is_origin(&self, process: u32) -> bool
        ensures { result ≡ is_origin self.now.config process }
    {
        self.config.edges <= process && process < self.config.edges + self.config.origins
    }

    /// The origin that is asked for an object.
    fn origin_of(&self, object: u64) -> u32
        ensures { result ≡ origin_of self.now.config object }
    {
        self.config.edges + (object % u64::from(self.config.origins)) as u32
    }
}

/// What each event does to the cache that it goes to, where it is valid: to the state, to `out`, to which what it sends is
/// appended in order, and to `change`, which has no mark and no count yet and gets the marks of what it does to the queue, where
/// it keeps them.
impl Photo {
    /// Does what the event does, by its kind.
    fn happen<M: Marks>(
        &self,
        process: u32,
        state: &mut CacheState,
        event: &Event<Body>,
        change: &mut Change<Tally, M>,
        out: &mut Vec<Event<Body>>,
    ) -> Result<(), NoMemory>
        requires well_formed { IsWellFormed self.now.config process state.old }
        requires fresh { state.old.queue.next < exhaustion }
        requires valid { is_valid self.now.config event.now ≡ true }
        requires here { event.now.to ≡ process }
        requires none { M.list change.old.trail ≡ [] }
        requires uncounted { change.old.counts ≡ no_tally }
        ensures { OnOk result (HasHappened
            (happening self.now.config process state.old event.now.time event.now.body)
            state.old (object_of event.now.body) state.new
            out.old.items out.new.items M.keeps
            (M.list change.new.trail)) }
    {
        let time = event.time;
        match event.body {
            Body::Request { object, size } => {
                self.request(process, state, time, object, size, change, out)
            }
            Body::Miss { object, size, edge } => {
                self.miss(process, state, time, object, size, edge, change, out)
            }
            Body::Fill { object, size } => { self.fill(process, state, object, size, change, out) }
            Body::Purge { object } => self.purge(process, state, time, object, change, out),
            Body::Drop { object, edge } => {
                self.drop_object(process, state, time, object, edge, change, out)
            }
            Body::Clear { object } => self.clear(process, state, object, change, out),
        }
    }

    /// A request at an edge. A hit promotes its object; a miss waits for it, beside the requests that do so already, and
    /// the first that waits asks the origin.
    fn request<M: Marks>(
        &self,
        process: u32,
        state: &mut CacheState,
        time: u64,
        object: u64,
        size: u64,
        change: &mut Change<Tally, M>,
        out: &mut Vec<Event<Body>>,
    ) -> Result<(), NoMemory>
        requires well_formed { IsWellFormed self.now.config process state.old }
        requires fresh { state.old.queue.next < exhaustion }
        requires early { time < end_of_time }
        requires process { process < self.now.config.edges }
        requires none { M.list change.old.trail ≡ [] }
        requires uncounted { change.old.counts ≡ no_tally }
        ensures { OnOk result (HasHappened
            (request_happening self.now.config process state.old time object size)
            state.old object state.new out.old.items out.new.items M.keeps
            (M.list change.new.trail)) }
    {
        if let Some(row) = state.row(object) {
            state.hit(self.config.policy, object, size, row, &mut change.trail)?;
            return Ok(());
        }
        if let Some(_others) = state.join(object)? {
            state.count_coalesced(size);
            return Ok(());
        }
        state.count_miss(size);
        let question = Body::Miss {
            object,
            size,
            edge: process,
        };
        let origin = self.origin_of(object);
        state.send(process, time + self.config.up, origin, question, out)?;
        Ok(())
    }

    /// A miss at an origin. A hit promotes its object; what the origin lacks is fetched from the backend and stored.
    /// The edge is sent a fill.
    fn miss<M: Marks>(
        &self,
        process: u32,
        state: &mut CacheState,
        time: u64,
        object: u64,
        size: u64,
        edge: u32,
        change: &mut Change<Tally, M>,
        out: &mut Vec<Event<Body>>,
    ) -> Result<(), NoMemory>
        requires well_formed { IsWellFormed self.now.config process state.old }
        requires fresh { state.old.queue.next < exhaustion }
        requires early { time < end_of_time }
        requires process { process < self.now.config.edges + self.now.config.origins }
        requires some { 1 ≤ size }
        requires none { M.list change.old.trail ≡ [] }
        requires uncounted { change.old.counts ≡ no_tally }
        ensures { OnOk result (HasHappened
            (miss_happening self.now.config process state.old time object size edge)
            state.old object state.new out.old.items out.new.items M.keeps
            (M.list change.new.trail)) }
    {
        let Config {
            policy,
            down,
            back,
            ..
        } = self.config;
        let answer = Body::Fill { object, size };
        if let Some(row) = state.row(object) {
            state.hit(policy, object, size, row, &mut change.trail)?;
            state.send(process, time + down, edge, answer, out)?;
            return Ok(());
        }
        state.store(policy, object, size, change)?;
        state.count_miss(size);
        state.send(process, time + down + back, edge, answer, out)?;
        Ok(())
    }

    /// A fill at an edge. It answers the requests that wait for it, if any, and what the edge lacks is stored.
    fn fill<M: Marks>(
        &self,
        process: u32,
        state: &mut CacheState,
        object: u64,
        size: u64,
        change: &mut Change<Tally, M>,
        out: &mut Vec<Event<Body>>,
    ) -> Result<(), NoMemory>
        requires well_formed { IsWellFormed self.now.config process state.old }
        requires fresh { state.old.queue.next < exhaustion }
        requires some { 1 ≤ size }
        requires none { M.list change.old.trail ≡ [] }
        requires uncounted { change.old.counts ≡ no_tally }
        ensures { OnOk result (HasHappened
            (fill_happening self.now.config state.old object size)
            state.old object state.new out.old.items out.new.items M.keeps
            (M.list change.new.trail)) }
    {
        let answered = state.answer(object);
        state.store_lacking(self.config.policy, object, size, change)?;
        state.count_late(answered);
        Ok(())
    }
}

/// What a purge does, on its way from an edge over its origin to the other edges: the object leaves where it is stored.
/// Requests that wait for it go on waiting, and a fill on its way is stored when it comes.
impl Photo {
    /// A purge at an edge, which tells the origin.
    fn purge<M: Marks>(
        &self,
        process: u32,
        state: &mut CacheState,
        time: u64,
        object: u64,
        change: &mut Change<Tally, M>,
        out: &mut Vec<Event<Body>>,
    ) -> Result<(), NoMemory>
        requires well_formed { IsWellFormed self.now.config process state.old }
        requires early { time < end_of_time }
        requires process { process < self.now.config.edges }
        requires none { M.list change.old.trail ≡ [] }
        requires uncounted { change.old.counts ≡ no_tally }
        ensures { OnOk result (HasHappened
            (happening self.now.config process state.old time (Body.Purge object))
            state.old object state.new out.old.items out.new.items M.keeps
            (M.list change.new.trail)) }
    {
        state.purge(object, self.config.reclaim, &mut change.trail)?;
        let order = Body::Drop {
            object,
            edge: process,
        };
        let origin = self.origin_of(object);
        state.send(process, time + self.config.up, origin, order, out)?;
        Ok(())
    }

    /// A drop at an origin, which tells every edge but the one that told it.
    fn drop_object<M: Marks>(
        &self,
        process: u32,
        state: &mut CacheState,
        time: u64,
        object: u64,
        edge: u32,
        change: &mut Change<Tally, M>,
        out: &mut Vec<Event<Body>>,
    ) -> Result<(), NoMemory>
        requires well_formed { IsWellFormed self.now.config process state.old }
        requires early { time < end_of_time }
        requires process { process + 1 < 2 ^ 32 }
        requires none { M.list change.old.trail ≡ [] }
        requires uncounted { change.old.counts ≡ no_tally }
        ensures { OnOk result (HasHappened
            (happening self.now.config process state.old time (Body.Drop object edge))
            state.old object state.new out.old.items out.new.items M.keeps
            (M.list change.new.trail)) }
    {
        state.purge(object, self.config.reclaim, &mut change.trail)?;
        let first = state.sends();
        let time = time + self.config.down;
        let sent = self.send_clears(process, first, time, object, edge, out)?;
        state.count_sends(sent);
        Ok(())
    }

    /// A clear at an edge, which tells nobody.
    fn clear<M: Marks>(
        &self,
        process: u32,
        state: &mut CacheState,
        object: u64,
        change: &mut Change<Tally, M>,
        out: &mut Vec<Event<Body>>,
    ) -> Result<(), NoMemory>
        requires well_formed { IsWellFormed self.now.config process state.old }
        requires none { M.list change.old.trail ≡ [] }
        requires uncounted { change.old.counts ≡ no_tally }
        ensures { OnOk result (HasHappened
            (purge_happening self.now.config state.old object [])
            state.old object state.new out.old.items out.new.items M.keeps
            (M.list change.new.trail)) }
    {
        state.purge(object, self.config.reclaim, &mut change.trail)?;
        Ok(())
    }

    /// Tells every edge but one to let go of an object, in rising number. Hands back how many it told. The process has
    /// sent `first` events before.
    fn send_clears(
        &self,
        process: u32,
        first: u64,
        time: u64,
        object: u64,
        edge: u32,
        out: &mut Vec<Event<Body>>,
    ) -> Result<u64, NoMemory>
        requires process { process + 1 < 2 ^ 32 }
        ensures sent { OnOk result (out.new.items
            ≡ out.old.items ++ clears_of self.now.config process first time object edge) }
        ensures count { IfOk result (λ count.
            count ≡ length (clears_of self.now.config process first time object edge)) }
    {
        let mut count = 0;
        for to in 0..self.config.edges {
            if to != edge {
                out.push(Event {
                    time,
                    source: process + 1,
                    number: first.wrapping_add(count),
                    to,
                    body: Body::Clear { object },
                })?;
                count += 1;
            }
        }
        Ok(count)
    }
}

/// Whether a size is in its range.
fn is_size(size: u64) -> bool
    ensures { result ≡ (nat_le 1 size && nat_le size greatest_size) }
{
    1 <= size && size <= MAX_SIZE
}

impl VtModel for Photo {
    type State = CacheState;

    type Body = Body;

    type Undo = Undo;

    ghost use Rattle.std.specs.Prelude.{ℕ, nat_le, length, ◌^◌, ◌+◌, ◌*◌, ◌||◌, ◌≡◌};
    ghost use Rattle.rw_ripq.specs.Weight.{gone_blocks, moved_rows};
    ghost use Rattle.rw_photo.specs.Cache.{IsWellFormed, is_exhausted};
    ghost use Rattle.rw_photo.specs.Events.{is_valid, step};
    ghost use Rattle.rw_photo.specs.Undoing.{TakesBack};
    ghost use Rattle.rw_photo.specs.Laws.{valid_ranges, step_keeps, step_future, bodies_same};

    ghost process_count = { λ m. m.config.edges + m.config.origins };

    ghost is_valid = { λ m e. is_valid m.config e };

    ghost IsWellFormed = { λ m p s. IsWellFormed m.config p s };

    ghost is_exhausted = { λ _ s. is_exhausted s };

    ghost step = { λ m p s e. step m.config p s e };

    ghost Links = { λ _ _ before e undo after. TakesBack before e undo after };

    ghost weight = { λ undo. length undo.change.trail };

    ghost weight_bound = { λ _ _ before after.
        8 + 4 * moved_rows before.queue after.queue + gone_blocks before.queue after.queue };

    fn processes(&self) -> u32 {
        self.config.edges + self.config.origins
    }

    fn valid(&self, event: &Event<Body>) -> bool {
        let Event { time, to, body, .. } = *event;
        let Config { up, down, back, .. } = self.config;
        let (stands, latest) = match body {
            Body::Request { size, .. } => (self.is_edge(to) && is_size(size), MAX_TIME),
            Body::Miss { size, edge, .. } => {
                let stands = self.is_origin(to) && self.is_edge(edge);
                (stands && is_size(size), MAX_TIME + up)
            }
            Body::Fill { size, .. } => {
                (
                    self.is_edge(to) && is_size(size),
                    MAX_TIME + up + down + back,
                )
            }
            Body::Purge { .. } => (self.is_edge(to), MAX_TIME),
            Body::Drop { edge, .. } => (self.is_origin(to) && self.is_edge(edge), MAX_TIME + up),
            Body::Clear { .. } => (self.is_edge(to), MAX_TIME + up + down),
        };
        stands && time <= latest
    }

    fn exhausted(&self, state: &CacheState) -> bool {
        state.sends() >= EXHAUSTED || state.next_serial() >= EXHAUSTED
    }

    fn execute(
        &self,
        alloc: Global,
        process: u32,
        state: &mut CacheState,
        event: &Event<Body>,
        out: &mut Vec<Event<Body>>,
    ) -> Result<Undo, Refusal> {
        if self.exhausted(state) {
            return Err(Refusal::Exhausted);
        }
        let waiting = state.waiting(event.body.object());
        let before = state.counters();
        let told = out.len();
        let mut change = Change::new(alloc, Tally::default());
        self.happen(process, state, event, &mut change, out)?;
        let Change { trail, .. } = change;
        let mut counts = state.counters();
        counts.take_off(&before);
        Ok(Undo {
            change: Change { trail, counts },
            sent: (out.len() - told) as u64,
            waiting,
        })
    }

    fn advance(
        &self,
        _alloc: Global,
        process: u32,
        state: &mut CacheState,
        event: &Event<Body>,
        out: &mut Vec<Event<Body>>,
    ) -> Result<(), Refusal> {
        if self.exhausted(state) {
            return Err(Refusal::Exhausted);
        }
        let mut unmarked = Change {
            trail: NoMarks,
            counts: Tally::default(),
        };
        self.happen(process, state, event, &mut unmarked, out)?;
        Ok(())
    }

    fn reverse(
        &self,
        _alloc: Global,
        _process: u32,
        state: &mut CacheState,
        event: &Event<Body>,
        undo: Undo,
    ) -> Result<(), NoMemory> {
        let Undo {
            change: Change { trail, counts },
            sent,
            waiting,
        } = undo;
        state.rewind(trail)?;
        state.take_off(&counts);
        state.take_sends_back(sent);
        state.set_waiting(event.body.object(), waiting)
    }

    ghost ranges = { λ m. valid_ranges m.config };

    ghost keeps = { λ m. step_keeps m.config };

    ghost future = { λ m. step_future m.config };

    ghost same = { bodies_same };

    ghost light = { λ _ _ _ _ _ _ links. links.short };
}

impl Lookahead for Photo {
    ghost use Rattle.rw_photo.specs.Events.{lookahead_of};
    ghost use Rattle.rw_photo.specs.Laws.{step_ahead};

    ghost lookahead_of = { λ m. lookahead_of m.config };

    fn lookahead(&self) -> u64 {
        self.config.up.min(self.config.down)
    }

    // Caches that admit nothing only look up what a request names.
    fn grain(&self) -> u64 {
        match self.config.policy {
            Policy::Off => 1024,
            Policy::Lru | Policy::Slru(_) => 64,
        }
    }

    ghost ahead = { λ m. step_ahead m.config };
}
