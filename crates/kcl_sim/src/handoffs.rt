//! Hands off the leases that workers release. A hand-off finishes the batch that the processor has, sets the
//! checkpoint, and frees the row of the lease. All turns of a hand-off have the same time. A turn is a command with its
//! sender and its time.
ghost use Rattle.std.specs.Prelude.{◌≡◌, ◌⊎◌, ◌<◌, ◌≤◌, ◌^◌, ◌∷◌, ◌++◌, false, true, None, Some, IfOk, OnErr, OnOk};
ghost use Rattle.kds_defs.specs.Histories.{answer};
ghost use Rattle.kds_defs.specs.Kinds.{is_service};
ghost use Rattle.kds_defs.specs.Lawful.{IsLawfulCommand};
ghost use Rattle.kcl_defs.specs.Consumers.{due_call};
ghost use Rattle.kcl_hand.specs.Handing.{left_at};
ghost use Rattle.kcl_hand.specs.Joints.{HandOff};
ghost use Rattle.kcl_hand.specs.Runs.{called_up};
ghost use Rattle.kcl_hand.specs.Standing.{turns_left_in};
ghost use Rattle.kcl_script.specs.declared.line.Line.TheVariants as line;
ghost use Rattle.kcl_sim.specs.Hands.{IsHandOf, MadeRound, RanCommand, RanFirst, RanToEnd, deal_at};
ghost use Rattle.kcl_sim.specs.Keeping.{if_wanted};
ghost use Rattle.kcl_sim.specs.Output.{Ran, deal_text, raw_turn};
ghost use Rattle.kcl_sim.specs.Standing.{GoesOn, MayHaveBroken, RunsSo, turned};

use crate::keep::Keep;
use crate::sim::Sim;
use crate::wanted::{say_command, say_left, say_part, say_word};
use kcl_hand::Handover;
use kcl_proc::Stock;
use kds_base::{Memory, Moment, Octets, ShardRef};
use kds_defs::{Answer, Command, Machine, Turn};
use std::alloc::Global;

/// Makes the processor call that is due in the hand-off, if any.
fn call_hand(hand: &mut Handover<Stock>) -> Result<(), Memory>
    ensures few { turns_left_in hand.new ≤ turns_left_in hand.old }
    ensures none_due { OnOk result (due_call hand.new.consumer.stage ≡ None) }
    ensures called { OnOk result ((x : HandOff) → IsHandOf hand.old x → IsHandOf hand.new (called_up x)) }
{
    match hand.due() {
        Some(_) => hand.call(),
        None => Ok(()),
    }
}

impl<M: Machine, K: Keep> Sim<M, K> {
    /// Applies the command `what` of a hand-off as a turn, and adds the command and its answer to the line of output.
    /// If memory runs out, the turn may already have been applied.
    fn make_hand_turn(
        &mut self,
        alloc: Global,
        at: Moment,
        by: u32,
        what: Command,
        text: &mut Octets,
    ) -> Result<Answer, Memory>
        requires early { at < 2 ^ 62 }
        requires lawful { IsLawfulCommand what }
        requires lease { is_service what ≡ false }
        ensures answered { IfOk result (λ a. a ≡ answer self.old.history (raw_turn at by what)) }
        ensures ran { OnOk result (self.new ≡ turned self.old (raw_turn at by what)) }
        ensures output { OnOk result (text.new ≡ text.old
            ++ if_wanted K.wanted (deal_text (deal_at at by self.old.history what))) }
        ensures breaks { OnErr result ((self.new ≡ self.old) ⊎ (self.new ≡ turned self.old (raw_turn at by what))) }
    {
        say_command::<K>(alloc, &what, text)?;
        let answer = self.run(alloc, Turn { by, at, what })?;
        say_part::<K>(alloc, &answer, text)?;
        Ok(answer)
    }

    /// Applies the next command of a hand-off as a turn, and then makes the processor call that is due after the
    /// answer, if any. If memory runs out, the turn may already have been applied.
    fn hand_round(
        &mut self,
        alloc: Global,
        at: Moment,
        by: u32,
        hand: &mut Handover<Stock>,
        text: &mut Octets,
    ) -> Result<(), Memory>
        requires early { at < 2 ^ 62 }
        requires none_due { due_call hand.old.consumer.stage ≡ None }
        requires going { left_at hand.old.stand ≡ None }
        ensures unfinished { self.new.unfinished ≡ self.old.unfinished }
        ensures workers { self.new.workers ≡ self.old.workers }
        ensures cleared_at { self.new.cleared_at ≡ self.old.cleared_at }
        ensures fewer { OnOk result (turns_left_in hand.new < turns_left_in hand.old) }
        ensures none_due { OnOk result (due_call hand.new.consumer.stage ≡ None) }
        ensures made { OnOk result (MadeRound K.wanted at by self.old self.new hand.old hand.new text.old text.new) }
        ensures breaks { OnErr result ((self.new.history ≡ self.old.history)
            ⊎ RanCommand at by self.old self.new hand.old) }
    {
        let what = hand.next();
        let answer = self.make_hand_turn(alloc, at, by, what, text)?;
        hand.absorb(answer);
        call_hand(hand)
    }

    /// Carries out a hand-off to its end, and adds its line of output. If memory runs out, no output is added, and any
    /// number of the hand-off's first turns may already have been applied.
    fn hand_over(
        &mut self,
        alloc: Global,
        at: Moment,
        by: u32,
        hand: Handover<Stock>,
        to: &mut Octets,
    ) -> Result<(), Memory>
        requires early { at < 2 ^ 62 }
        requires few { turns_left_in hand ≤ 3 }
        ensures unfinished { self.new.unfinished ≡ self.old.unfinished }
        ensures workers { self.new.workers ≡ self.old.workers }
        ensures cleared_at { self.new.cleared_at ≡ self.old.cleared_at }
        ensures ran { OnOk result (RanToEnd K.wanted at by self.old self.new hand to.old to.new) }
        ensures breaks { OnErr result (RanFirst at by self.old self.new hand) }
        ensures same { OnErr result (to.new ≡ to.old) }
    {
        let mut hand = hand;
        let mut text = Octets::new(alloc);
        call_hand(&mut hand)?;
        while hand.over().is_none() {
            self.hand_round(alloc, at, by, &mut hand, &mut text)?;
        }
        say_left::<K>(hand.over(), &mut text)?;
        to.extend(text.as_slice())
    }

    /// Hands off the lease of the shard `key` that the worker with the actor number `by` holds, and adds a line of
    /// output. If there is no such worker or lease, only the line `none` is added. If memory runs out, no output is
    /// added. If memory runs out after the worker has released the lease, the run of the schedule is over, and any
    /// number of the hand-off's first turns may already have been applied.
    pub(crate) fn hand(
        &mut self,
        alloc: Global,
        at: Moment,
        by: u32,
        key: ShardRef,
        to: &mut Octets,
    ) -> Result<(), Memory>
        requires early { at < 2 ^ 62 }
        requires going { self.old.unfinished ≡ false }
        ensures goes { OnOk result ((ran : Ran) → RunsSo self.old ran
            → GoesOn K.wanted self.new ran (line.Hand at by key) to.old to.new) }
        ensures cleared_at { OnOk result (self.new.cleared_at ≡ self.old.cleared_at) }
        ensures breaks { OnErr result ((ran : Ran) → RunsSo self.old ran
            → MayHaveBroken self.new ran (line.Hand at by key)) }
        ensures same { OnErr result (to.new ≡ to.old) }
    {
        let Some(index) = self.index_of(by) else {
            return say_word::<K>(b"none".as_slice(), &mut self.line, to);
        };
        let released = self.workers[index].release(key);
        let Some((held, consumer)) = released else {
            return say_word::<K>(b"none".as_slice(), &mut self.line, to);
        };
        self.unfinished = true;
        self.hand_over(alloc, at, by, Handover::new(held, consumer), to)?;
        self.unfinished = false;
        Ok(())
    }
}
