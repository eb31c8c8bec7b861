ghost use Rattle.std.specs.Prelude.{◌≡◌, ◌↔◌, IfOk, IfErr};
ghost use Rattle.rw_rounds.specs.Plans.{IsInRanges};
ghost use Rattle.rw_rounds.specs.declared.stop.Stop.TheVariants.{BadPlan};

use crate::plan::Plan;
use crate::stop::Stop;
use crate::traffic::Traffic;
use rw_vt::Model as VtModel;
use rw_world::World;
use std::marker::Model;

/// A run between two rounds: the world, and how it is run.
#[derive(Drop)]
pub struct Sim<M: VtModel> {
    pub(crate) world: World<M>,
    pub(crate) plan: Plan,
    pub(crate) floor: u64,
    pub(crate) traffic: Traffic,
}

impl<M: VtModel> Model for Sim<M> {
    ghost use Rattle.rw_rounds.specs.Plans.{IsInRanges};
    ghost use Rattle.rw_rounds.specs.Rounds.{SimState};

    ghost Value = { SimState M M.State M.Body };

    ghost view = { λ s. record { simulation = s.world; plan = s.plan; floor = s.floor } };

    ghost invariant = { λ s. IsInRanges s.plan };
}

impl<M: VtModel + Drop> Sim<M> {
    /// A run of `world` by `plan`, before its first round. Takes no memory.
    ///
    /// # Errors
    ///
    /// `BadPlan`, exactly where a field of the plan is out of its range.
    pub fn open(world: World<M>, plan: Plan) -> Result<Sim<M>, Stop>
        ensures holds { IfOk result (λ s.
            s ≡ record { simulation = world; plan = plan; floor = 0 }) }
        ensures plan { (result ≡ Err Stop.BadPlan) ↔ (IsInRanges plan → ⊥) }
        ensures others { IfErr result (λ s. s ≡ BadPlan) }
    {
        if !plan.is_valid() {
            return Err(Stop::BadPlan);
        }
        Ok(Sim {
            world,
            plan,
            floor: 0,
            traffic: Traffic::default(),
        })
    }

    /// What the last round gave as its floor, in ticks, and 0 before the first round: all events before it are
    /// committed. Takes no memory.
    pub fn floor(&self) -> u64
        ensures floor { result ≡ self.now.floor }
    {
        self.floor
    }

    /// What the rounds so far did, in counts. Takes no memory.
    pub fn traffic(&self) -> Traffic {
        self.traffic
    }

    /// The world. Takes no memory.
    pub fn into_world(self) -> World<M>
        ensures world { result ≡ self.simulation }
    {
        let Sim {
            world,
            plan: _,
            floor: _,
            traffic: _,
        } = self;
        world
    }
}
