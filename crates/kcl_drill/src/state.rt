//! The state of the generator of a drill's commands. A drill is a self-test whose input is generated from a number.
ghost use Rattle.std.specs.Prelude.{◌≡◌, ◌∷◌, IfOk, IfSome, OnErr};
ghost use Rattle.kds_defs.specs.Lawful.{IsLawfulCommand};
ghost use Rattle.kcl_drill.specs.declared.state.DrillStage.TheVariants as stage;
ghost use Rattle.kcl_drill.specs.Generated.{generated};
ghost use Rattle.kcl_drill.specs.Coming.{coming, GivesNext, GivesPlan, IsSound};

use crate::limits::FIRST_SHARDS;
use crate::opens::OpenShards;
use crate::plan::{Plan, find_plan, middle_of};
use crate::records::{drawn_after, record, stream_name};
use kds_base::Memory;
use kds_defs::Command;
use std::alloc::Global;

/// The generator's next step: to create the stream, to put a record, or to split or merge shards before the next record
/// if such a change is due.
#[derive(Clone, Copy)]
pub enum DrillStage {
    Create,
    Put,
    Reshard,
}

/// The generator's state: the next step, the number of records made so far (`count`) and still to be made (`left`), the
/// random number drawn last, and the open shards.
#[derive(Drop)]
pub struct State {
    pub alloc: Global,
    pub stage: DrillStage,
    pub count: u64,
    pub left: u64,
    pub drawn: u64,
    pub opens: OpenShards,
}

impl State {
    /// Returns the state before the first command of a drill. The drill is generated from `number`, and `records` is
    /// the number of records to be made.
    pub fn new(alloc: Global, number: u64, records: u64) -> State
        ensures is { coming result ≡ generated number records }
        ensures well_formed { IsSound result }
    {
        State {
            alloc,
            stage: DrillStage::Create,
            count: 0,
            left: records,
            drawn: number,
            opens: OpenShards::none(alloc),
        }
    }

    /// Returns CreateStream, the first command of a drill. If memory runs out, the commands that are still to come
    /// don't change.
    pub fn create(&mut self) -> Result<Command, Memory>
        requires well_formed { IsSound self.old }
        requires stage { self.old.stage ≡ stage.Create }
        ensures ok { IfOk result (λ c. coming self.old ≡ c ∷ coming self.new) }
        ensures lawful { IfOk result IsLawfulCommand }
        ensures err { OnErr result (coming self.new ≡ coming self.old) }
        ensures well_formed { IsSound self.new }
    {
        let name = stream_name(self.alloc)?;
        self.opens = OpenShards::first(self.alloc)?;
        self.stage = DrillStage::Put;
        Ok(Command::Create {
            name,
            shards: FIRST_SHARDS,
        })
    }

    /// Returns the command that puts the next record, or `None` if no record is left. If memory runs out, the commands
    /// that are still to come don't change.
    pub fn put(&mut self) -> Result<Option<Command>, Memory>
        requires well_formed { IsSound self.old }
        requires stage { self.old.stage ≡ stage.Put }
        ensures ok { IfOk result (λ next. GivesNext next (coming self.old) (coming self.new)) }
        ensures lawful { IfOk result (λ next. IfSome next IsLawfulCommand) }
        ensures err { OnErr result (coming self.new ≡ coming self.old) }
        ensures well_formed { IsSound self.new }
    {
        if self.left == 0 {
            return Ok(None);
        }
        let drawn = drawn_after(self.drawn);
        let name = stream_name(self.alloc)?;
        let item = record(self.alloc, self.count, drawn)?;
        self.drawn = drawn;
        self.count += 1;
        self.left -= 1;
        self.stage = DrillStage::Reshard;
        Ok(Some(Command::Put { name, item }))
    }

    /// Returns the command of the split or merge that is due now, or `None` if neither is due. If memory runs out, the
    /// commands that are still to come don't change.
    pub fn reshard(&mut self) -> Result<Option<Command>, Memory>
        requires well_formed { IsSound self.old }
        requires stage { self.old.stage ≡ stage.Reshard }
        ensures ok { IfOk result (λ next. GivesPlan next (coming self.old) (coming self.new) self.new.stage) }
        ensures lawful { IfOk result (λ next. IfSome next IsLawfulCommand) }
        ensures err { OnErr result (coming self.new ≡ coming self.old) }
        ensures well_formed { IsSound self.new }
    {
        let Some(plan) = find_plan(self.count, self.drawn, &self.opens) else {
            self.stage = DrillStage::Put;
            return Ok(None);
        };
        let command = plan.command(self.alloc)?;
        match plan {
            Plan::Split(x) => self.opens.split(self.alloc, x, middle_of(&x.range))?,
            Plan::Merge(x, y) => self.opens.merge(self.alloc, x, y)?,
        }
        self.stage = DrillStage::Put;
        Ok(Some(command))
    }
}
