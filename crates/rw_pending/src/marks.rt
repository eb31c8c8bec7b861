ghost use Rattle.std.specs.Prelude.{◌≡◌, ◌≢◌, ◌<◌, IfNone, IfSome};
ghost use Rattle.rw_vt.specs.Words.{Count};
ghost use Rattle.rw_pending.specs.Wheel.{mark_at, slots_of_wheel};

use std::marker::Model;

/// Which slots of a wheel have events: a bit for each slot, and a bit for each word that is not 0. Finding the first slot takes
/// the same time wherever it is.
#[derive(Drop)]
pub struct Marks {
    words: [u64; 20],
    /// Which words are not 0.
    summary: u64,
}

impl Model for Marks {
    ghost use Rattle.std.specs.Prelude.{ℕ, List};
    ghost use Rattle.rw_pending.specs.Wheel.{IsSummary};

    ghost Value = { List ℕ };

    ghost view = { λ m. m.words };

    ghost invariant = { λ m. IsSummary m.summary m.words };
}

impl Marks {
    /// No slot is marked.
    pub fn new() -> Self
        ensures { (k : Count) → mark_at result k ≡ 0 }
    {
        Marks {
            words: [0; 20],
            summary: 0,
        }
    }

    /// Marks a slot.
    #[inline(always)]
    pub fn set(&mut self, at: usize)
        requires { at < slots_of_wheel }
        ensures set { mark_at self.new at ≡ 1 }
        ensures others { (k : Count) → k ≢ at → mark_at self.new k ≡ mark_at self.old k }
    {
        self.words[at / 64] |= 1 << (at % 64);
        self.summary |= 1 << (at / 64);
    }

    /// Takes the mark of a slot away.
    #[inline(always)]
    pub fn clear(&mut self, at: usize)
        requires { at < slots_of_wheel }
        ensures clear { mark_at self.new at ≡ 0 }
        ensures others { (k : Count) → k ≢ at → mark_at self.new k ≡ mark_at self.old k }
    {
        let word = self.words[at / 64] & !(1 << (at % 64));
        self.words[at / 64] = word;
        if word == 0 {
            self.summary &= !(1 << (at / 64));
        }
    }

    /// The first slot that is marked. `None` only where no slot is.
    #[inline(always)]
    pub fn first(&self) -> Option<usize>
        ensures marked { IfSome result (λ at. (at < slots_of_wheel) × (mark_at self.now at ≡ 1)) }
        ensures first { IfSome result (λ at. (k : Count) → k < at → mark_at self.now k ≡ 0) }
        ensures none { IfNone result ((k : Count) → mark_at self.now k ≡ 0) }
    {
        if self.summary == 0 {
            return None;
        }
        let at = self.summary.trailing_zeros() as usize;
        Some(at * 64 + self.words[at].trailing_zeros() as usize)
    }
}
