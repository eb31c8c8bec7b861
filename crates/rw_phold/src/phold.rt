ghost use Rattle.std.specs.Prelude.{◌≡◌, ◌≤◌, ◌<◌, ◌^◌, ◌↔◌, IfSome, IsSome};
ghost use Rattle.std.specs.Fn.{iterate};
ghost use Rattle.rw_vt.specs.Limits.{end_of_time};
ghost use Rattle.rw_phold.specs.Draws.{drawn, undrawn};
ghost use Rattle.rw_phold.specs.Settings.{most_processes, most_ticks, IsSetting};

use rw_vt::{END, Event, Lookahead, Model as VtModel, NoMemory, Refusal};
use std::alloc::Global;

/// The most processes.
pub const MAX_PROCESSES: u32 = 1 << 16;

/// The most ticks of the lookahead, and of the spread.
pub const MAX_TICKS: u64 = 1 << 20;

/// The grain of a setting, if nothing is said: that of [`Lookahead`].
const GRAIN: u64 = 64;

/// What a run of PHOLD is set up with.
#[derive(Clone, Copy)]
pub struct Phold {
    /// How many processes there are, 1 to [`MAX_PROCESSES`].
    pub processes: u32,
    /// How many of 65536 balls go to a process that is drawn from all; the others stay.
    pub remote: u32,
    /// The least time for which a ball is held, in ticks, 1 to [`MAX_TICKS`].
    pub lookahead: u64,
    /// A hold that is not short is the lookahead and a time that is drawn below this, in ticks, 1 to [`MAX_TICKS`].
    pub spread: u64,
    /// No ball comes at this time or later, in ticks, up to [`END`].
    pub until: u64,
    /// How many of 65536 holds are short, for the lookahead alone; which ones is drawn.
    pub short: u32,
    /// How many further draws an event makes, one after another, so that it takes longer: its sum is the last of them, and no
    /// time and no process depends on them.
    pub work: u32,
    /// How many events a worker has to execute between two meetings with the others, so that these are worth it
    /// ([`Lookahead::grain`]); with 0 workers go on in windows of the lookahead wherever they can.
    pub grain: u64,
    ghost some_processes: { 1 ≤ processes },
    ghost few_processes: { processes ≤ most_processes },
    ghost some_lookahead: { 1 ≤ lookahead },
    ghost few_lookahead: { lookahead ≤ most_ticks },
    ghost some_spread: { 1 ≤ spread },
    ghost few_spread: { spread ≤ most_ticks },
    ghost before_end: { until ≤ end_of_time },
}

impl Phold {
    ghost use Rattle.rw_phold.specs.Balls.{hold_by, place_by};

    /// A setting in which no hold is short, no event has further work, and the grain is 64; `None` exactly where a
    /// number is out of its range. Takes no memory.
    pub fn new(
        processes: u32,
        remote: u32,
        lookahead: u64,
        spread: u64,
        until: u64,
    ) -> Option<Phold>
        ensures in_range { IsSome result ↔ IsSetting processes lookahead spread until }
        ensures processes { IfSome result (λ m. m.processes ≡ processes) }
        ensures remote { IfSome result (λ m. m.remote ≡ remote) }
        ensures lookahead { IfSome result (λ m. m.lookahead ≡ lookahead) }
        ensures spread { IfSome result (λ m. m.spread ≡ spread) }
        ensures until { IfSome result (λ m. m.until ≡ until) }
        ensures short { IfSome result (λ m. m.short ≡ 0) }
        ensures work { IfSome result (λ m. m.work ≡ 0) }
        ensures grain { IfSome result (λ m. m.grain ≡ 64) }
    {
        let counts = (1..=MAX_PROCESSES).contains(&processes);
        let times = (1..=MAX_TICKS).contains(&lookahead) && (1..=MAX_TICKS).contains(&spread);
        if !counts || !times || until > END {
            return None;
        }
        Some(Phold {
            processes,
            remote,
            lookahead,
            spread,
            until,
            short: 0,
            work: 0,
            grain: GRAIN,
        })
    }

    /// The setting in which so many of 65536 balls are held for the lookahead alone. Takes no memory.
    pub fn with_short(mut self, short: u32) -> Phold
        ensures { result ≡ record self { short = short } }
    {
        self.short = short;
        self
    }

    /// The setting in which an event makes so many further draws. Takes no memory.
    pub fn with_work(mut self, work: u32) -> Phold
        ensures { result ≡ record self { work = work } }
    {
        self.work = work;
        self
    }

    /// The setting in which so many events a worker are worth a meeting of the workers. Takes no memory.
    pub fn with_grain(mut self, grain: u64) -> Phold
        ensures { result ≡ record self { grain = grain } }
    {
        self.grain = grain;
        self
    }

    /// For how many ticks a ball is held beyond the lookahead, by what was drawn: for none, or for a drawn time.
    ///
    /// Which of the two is told by bits 16 to 31, of which nothing else is made: the time comes of bits 32 to 63, and the
    /// process of the next draw. Bit b of a congruence modulo 2^64 comes again after 2^(b + 1) draws, so the low bits are
    /// poor; bit 31, which decides first, does so after 2^32.
    fn hold(&self, draw: u64) -> u64
        ensures { result ≡ hold_by self.now draw }
    {
        if (draw >> 16) % 65536 < u64::from(self.short) {
            0
        } else {
            (draw >> 32) % self.spread
        }
    }

    /// The process to which a ball of `process` goes, by what was drawn.
    fn place(&self, process: u32, draw: u64) -> u32
        ensures { result ≡ place_by self.now process draw }
    {
        if draw >> 48 < u64::from(self.remote) {
            ((draw >> 16) % u64::from(self.processes)) as u32
        } else {
            process
        }
    }
}

/// What a process keeps.
#[derive(Clone, Copy, Default, PartialEq, Eq)]
pub struct Holder {
    /// What was drawn last.
    pub random: u64,
    /// The times of its events, mixed in their order.
    pub sum: u64,
    /// How many balls it passed on, modulo 2^64.
    pub sends: u64,
    /// How many events it executed, modulo 2^64.
    pub events: u64,
}

/// What comes to a process.
#[derive(Clone, Copy, PartialEq, Eq, PartialOrd, Ord)]
pub struct Ball {
    /// Which ball it is.
    pub number: u32,
}

/// Whether a ball was passed on.
#[derive(Clone, Copy, PartialEq, Eq)]
pub struct Passed(pub bool);

/// The number that is drawn after another (Knuth's MMIX).
pub(crate) fn draw(last: u64) -> u64
    ensures { result ≡ drawn last }
{
    last.wrapping_mul(6_364_136_223_846_793_005)
        .wrapping_add(1_442_695_040_888_963_407)
}

/// The number after which another is drawn.
fn undraw(next: u64) -> u64
    ensures { result ≡ undrawn next }
{
    next.wrapping_sub(1_442_695_040_888_963_407)
        .wrapping_mul(13_877_824_140_714_322_085)
}

/// The last of so many numbers, each drawn after the one before.
#[tactic(auto, using(crate::specs::Draws::draw_more))]
fn draw_on(last: u64, draws: u32) -> u64
    ensures { result ≡ iterate drawn draws last }
{
    let mut drawn = last;
    for _made in 0..draws {
        drawn = draw(drawn);
    }
    drawn
}

/// The number before so many, each drawn after the one before.
#[tactic(auto, using(crate::specs::Draws::undraw_more))]
fn undraw_back(next: u64, draws: u32) -> u64
    ensures { result ≡ iterate undrawn draws next }
{
    let mut undrawn = next;
    for _made in 0..draws {
        undrawn = undraw(undrawn);
    }
    undrawn
}

impl VtModel for Phold {
    type State = Holder;

    type Body = Ball;

    type Undo = Passed;

    ghost use Rattle.std.specs.Prelude.{ℕ, Bool, false};
    ghost use Rattle.std.proofs.Common.{arith};
    ghost use Rattle.rw_phold.specs.Balls.{IsHolder, IsPassed, ball_same, is_sound_ball, phold_future, phold_keeps, phold_ranges, phold_step};

    ghost process_count = { λ m. m.processes };

    ghost is_valid = { is_sound_ball };

    ghost IsWellFormed = { λ _ _ s. IsHolder s };

    ghost is_exhausted = { λ _ _. false };

    ghost step = { phold_step };

    ghost Links = { IsPassed };

    ghost weight = { λ _. 1 };

    ghost weight_bound = { λ _ _ _ _. 1 };

    fn processes(&self) -> u32 {
        self.processes
    }

    fn valid(&self, event: &Event<Ball>) -> bool {
        let _number = event.number;
        let _ball = event.body.number;
        event.time < END && event.source <= self.processes && event.to < self.processes
    }

    fn exhausted(&self, _state: &Holder) -> bool {
        false
    }

    fn execute(
        &self,
        _alloc: Global,
        process: u32,
        state: &mut Holder,
        event: &Event<Ball>,
        out: &mut Vec<Event<Ball>>,
    ) -> Result<Passed, Refusal> {
        let first = draw(state.random);
        let second = draw(first);
        let time = event.time + self.lookahead + self.hold(first);
        let passed = time < self.until;
        if passed {
            out.push(Event {
                time,
                source: process + 1,
                number: state.sends,
                to: self.place(process, second),
                body: event.body,
            })?;
            state.sends = state.sends.wrapping_add(1);
        }
        state.random = second;
        state.sum = draw_on(draw(state.sum.wrapping_add(event.time)), self.work);
        state.events = state.events.wrapping_add(1);
        Ok(Passed(passed))
    }

    fn reverse(
        &self,
        _alloc: Global,
        _process: u32,
        state: &mut Holder,
        event: &Event<Ball>,
        undo: Passed,
    ) -> Result<(), NoMemory> {
        state.events = state.events.wrapping_sub(1);
        state.sum = undraw(undraw_back(state.sum, self.work)).wrapping_sub(event.time);
        state.random = undraw(undraw(state.random));
        if undo.0 {
            state.sends = state.sends.wrapping_sub(1);
        }
        Ok(())
    }

    ghost ranges = { phold_ranges };

    ghost keeps = { phold_keeps };

    ghost future = { phold_future };

    ghost same = { ball_same };

    ghost light = { λ _ _ _ _ _ _ _. Prim.omega arith };
}

impl Lookahead for Phold {
    ghost use Rattle.rw_phold.specs.Balls.{phold_ahead};

    ghost lookahead_of = { λ m. m.lookahead };

    fn lookahead(&self) -> u64 {
        self.lookahead
    }

    fn grain(&self) -> u64 {
        self.grain
    }

    ghost ahead = { phold_ahead };
}
