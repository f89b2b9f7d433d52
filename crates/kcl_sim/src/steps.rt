//! Executes the lines that start, step or stop workers. A step first makes the processor calls that are due in a
//! worker, and then makes the worker's next turn. A turn is a command with its sender and its time. Each sender, such
//! as a worker, is called an actor and has a number.
ghost use Rattle.std.specs.Prelude.{◌≡◌, ℕ, ◌∷◌, ◌++◌, ◌<◌, ◌≤◌, ◌^◌, length, slice_get, true, false, ◌⊎◌, Some};
ghost use Rattle.std.specs.Prelude.{IfSome, IsSome, OnErr, OnOk};
ghost use Rattle.kcl_defs.specs.Workers.{usual_settings};
ghost use Rattle.kds_defs.specs.Histories.{answer};
ghost use Rattle.kds_defs.specs.Kinds.{is_service};
ghost use Rattle.kds_defs.specs.Lawful.{IsLawfulCommand};
ghost use Rattle.kcl_script.specs.declared.line.Line.TheVariants as line;
ghost use Rattle.kcl_sim.specs.Output.{Ran, command_output, raw_turn};
ghost use Rattle.kcl_sim.specs.Keeping.{if_wanted};
ghost use Rattle.kcl_sim.specs.Standing.{ChangedAt, Employs, GoesOn, HasAsked, IsFree, MayHaveRun, RunsSo, StepsAt};
ghost use Rattle.kcl_sim.specs.Standing.{TookAnswer, TurnRan, index_among};
ghost use Rattle.kcl_sim.specs.Workers.{Employed, answered, stopped};

use crate::keep::Keep;
use crate::sim::Sim;
use crate::wanted::{say_answered, say_command, say_word, say_worker};
use crate::workers::{absorb, call_all, next_command};
use kcl_defs::Settings;
use kcl_proc::Kind;
use kcl_worker::Worker;
use kds_base::{Memory, Moment, Octets, WorkerNo};
use kds_defs::limits::MOST_ACTOR;
use kds_defs::{Command, Machine, Origin, Turn};
use std::alloc::Global;

/// Returns the usual settings of a worker, but with `from` as the initial position in the stream. Each row that the
/// worker makes in the lease table begins at this position.
fn settings(from: Origin) -> Settings
    ensures { result ≡ record usual_settings { from = from } }
{
    let mut settings = Settings::usual();
    settings.from = from;
    settings
}

impl<M: Machine, K: Keep> Sim<M, K> {
    /// Starts a worker, and adds the line `worker BY` to the output, where BY is the worker's actor number. If memory
    /// runs out, the run and the output are unchanged.
    pub(crate) fn hire(
        &mut self,
        alloc: Global,
        at: Moment,
        name: WorkerNo,
        kind: Kind,
        from: Origin,
        to: &mut Octets,
    ) -> Result<(), Memory>
        requires name { 1 ≤ name }
        requires going { self.old.unfinished ≡ false }
        ensures goes { OnOk result ((ran : Ran) → RunsSo self.old ran
            → GoesOn K.wanted self.new ran (line.Worker at name kind from) to.old to.new) }
        ensures cleared_at { OnOk result (self.new.cleared_at ≡ self.old.cleared_at) }
        ensures kept { OnErr result (self.new ≡ self.old) }
        ensures same { OnErr result (to.new ≡ to.old) }
    {
        let _ = at;
        self.workers.reserve(1)?;
        let by = self.workers.len() as u64 + MOST_ACTOR as u64 + 1;
        say_worker::<K>(alloc, by, &mut self.line, to)?;
        let worker = Worker::new(alloc, name, settings(from), kind);
        match self.workers.push(worker) {
            Ok(()) => Ok(()),
            Err(_) => unreachable!(),
        }
    }

    /// Returns the index of the worker that is the actor `by`, or `None` if no worker is this actor.
    pub(crate) fn index_of(&self, by: u32) -> Option<usize>
        ensures { result ≡ index_among by (length self.now.workers) }
    {
        if by <= MOST_ACTOR {
            return None;
        }
        let index = (by - (MOST_ACTOR + 1)) as usize;
        if index < self.workers.len() {
            Some(index)
        } else {
            None
        }
    }

    /// Stops the worker that is the actor `by`, and adds the line `stopping` to the output. If no worker is this actor,
    /// only the line `none` is added. If memory runs out, the run and the output are unchanged.
    pub(crate) fn stop(&mut self, at: Moment, by: u32, to: &mut Octets) -> Result<(), Memory>
        requires { self.old.unfinished ≡ false }
        ensures goes { OnOk result ((ran : Ran) → RunsSo self.old ran
            → GoesOn K.wanted self.new ran (line.Stop at by) to.old to.new) }
        ensures cleared_at { OnOk result (self.new.cleared_at ≡ self.old.cleared_at) }
        ensures kept { OnErr result (self.new ≡ self.old) }
        ensures same { OnErr result (to.new ≡ to.old) }
    {
        let _ = at;
        match self.index_of(by) {
            Some(index) => {
                say_word::<K>(b"stopping".as_slice(), &mut self.line, to)?;
                self.workers[index].stop();
                Ok(())
            }
            None => say_word::<K>(b"none".as_slice(), &mut self.line, to),
        }
    }

    /// Applies the command `what` as a turn of the worker at the index `index`, and adds a line of output with the
    /// command and its answer. If memory runs out, no output is added, and the turn may already have been applied.
    fn make_turn(
        &mut self,
        alloc: Global,
        at: Moment,
        by: u32,
        index: usize,
        what: Command,
        to: &mut Octets,
    ) -> Result<(), Memory>
        requires early { at < 2 ^ 62 }
        requires lawful { IsLawfulCommand what }
        requires lease { is_service what ≡ false }
        requires unfinished { self.old.unfinished ≡ true }
        requires asked { IfSome (slice_get self.old.workers index) (λ w. IsSome w.waiting) }
        requires there { index < length self.old.workers }
        ensures unfinished { self.new.unfinished ≡ true }
        ensures cleared_at { OnOk result (self.new.cleared_at ≡ self.old.cleared_at) }
        ensures history { OnOk result (self.new.history ≡ raw_turn at by what ∷ self.old.history) }
        ensures worker { OnOk result
            (ChangedAt index (TookAnswer at by what self.old.history) self.old.workers self.new.workers) }
        ensures output { OnOk result (to.new ≡ to.old
            ++ if_wanted K.wanted (command_output self.old.history at by (Some what))) }
        ensures breaks { OnErr result ((self.new.history ≡ self.old.history)
            ⊎ (self.new.history ≡ raw_turn at by what ∷ self.old.history)) }
        ensures same { OnErr result (to.new ≡ to.old) }
    {
        let mut text = Octets::new(alloc);
        say_command::<K>(alloc, &what, &mut text)?;
        let answer = self.run(alloc, Turn { by, at, what })?;
        say_answered::<K>(alloc, &answer, &mut text)?;
        absorb(&mut self.workers[index], at, answer)?;
        to.extend(text.as_slice())
    }

    /// Makes a step of the worker at the index `index`: makes all processor calls that are due, and then makes the
    /// worker's next turn. If the worker is idle, it makes no turn, and the line `idle` is added. If memory runs out,
    /// no output is added, and the turn may already have been applied.
    fn step_at(
        &mut self,
        alloc: Global,
        at: Moment,
        by: u32,
        index: usize,
        to: &mut Octets,
    ) -> Result<(), Memory>
        requires early { at < 2 ^ 62 }
        requires unfinished { self.old.unfinished ≡ true }
        requires there { index < length self.old.workers }
        requires unasked { IfSome (slice_get self.old.workers index) IsFree }
        ensures unfinished { self.new.unfinished ≡ true }
        ensures cleared_at { OnOk result (self.new.cleared_at ≡ self.old.cleared_at) }
        ensures steps { OnOk result (StepsAt K.wanted at by index self.old self.new to.old to.new) }
        ensures breaks { OnErr result ((self.new.history ≡ self.old.history) ⊎ TurnRan at by index self.old self.new) }
        ensures same { OnErr result (to.new ≡ to.old) }
    {
        call_all(&mut self.workers[index])?;
        match next_command(&mut self.workers[index], at) {
            Some(what) => self.make_turn(alloc, at, by, index, what, to),
            None => say_word::<K>(b"idle".as_slice(), &mut self.line, to),
        }
    }

    /// Makes a step of the worker that is the actor `by`. If no worker is this actor, only the line `none` is added. If
    /// memory runs out, no output is added, and the turn may already have been applied. If memory runs out in the step
    /// of a worker, the run of the schedule is over.
    pub(crate) fn step_worker(
        &mut self,
        alloc: Global,
        at: Moment,
        by: u32,
        to: &mut Octets,
    ) -> Result<(), Memory>
        requires early { at < 2 ^ 62 }
        requires going { self.old.unfinished ≡ false }
        ensures goes { OnOk result ((ran : Ran) → RunsSo self.old ran
            → GoesOn K.wanted self.new ran (line.Step at by) to.old to.new) }
        ensures cleared_at { OnOk result (self.new.cleared_at ≡ self.old.cleared_at) }
        ensures breaks { OnErr result ((ran : Ran) → RunsSo self.old ran → MayHaveRun self.new ran (line.Step at by)) }
        ensures same { OnErr result (to.new ≡ to.old) }
    {
        let Some(index) = self.index_of(by) else {
            return say_word::<K>(b"none".as_slice(), &mut self.line, to);
        };
        self.unfinished = true;
        self.step_at(alloc, at, by, index, to)?;
        self.unfinished = false;
        Ok(())
    }
}
