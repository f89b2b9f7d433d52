//! Scales a stream to a number of open shards with uniform ranges of hash keys (UpdateShardCount).
ghost use Rattle.std.specs.Prelude.{◌≡◌, false, IfOk, Ok, OnErr, OnOk};
ghost use Rattle.kds_defs.specs.Lawful.{IsShardCount};
ghost use Rattle.kds_defs.specs.ScaleCommands.{made_by};
ghost use Rattle.kds_stream.specs.Showing.{Decides};
ghost use Rattle.kds_stream.specs.Steps.{IsPlan, is_over, scale_where};
ghost use Rattle.kds_stream.specs.Value.{ChangesIfAccepted, KeepsRetention, KeepsFields};

use crate::stream::Stream;
use kds_base::{Items, Memory, Seq};
use kds_defs::{Answer, Refusal, Reply, ScaleStep};
use kds_scale::plan;
use kds_stream_logs::{add_shards, is_spent, made_by, reserve_shards, take_steps};

impl Stream {
    /// First merges and then splits open shards, until there are `target` open shards with uniform ranges of hash keys
    /// (Kinesis API Reference, UpdateShardCount). The scaling takes as few steps as possible. `open_limit` is the
    /// greatest number of shards that may be open in this stream, given the open shards of the other streams. All
    /// memory is allocated before the first step. The scaling is refused with `Full` if and only if `target` is above
    /// `open_limit`. Otherwise it is refused with `Spent` if the stream's next sequence number or its number of shards
    /// would be above the greatest `u64` after the last step.
    pub fn scale(&mut self, target: u32, open_limit: u64) -> Result<Answer, Memory>
        requires { IsShardCount target }
        ensures answered { IfOk result (λ a. Decides self.old self.new a (λ log actor.
            scale_where (is_over target open_limit) log self.old.clock actor self.old.name self.old.no target)) }
        ensures change { ChangesIfAccepted self.old self.new result }
    {
        if u64::from(target) > open_limit {
            return Ok(Err(Refusal::Full));
        }
        let starts = self.tree.starts()?;
        let alloc = *self.logs.allocator();
        let steps = plan(alloc, starts.as_slice(), target)?;
        let steps = steps.as_slice();
        let made = made_by(steps);
        let first = self.next;
        if is_spent(
            first.0,
            steps.len() as u64,
            self.tree.len(),
            u64::from(made),
        ) {
            return Ok(Err(Refusal::Spent));
        }
        let reply = self.carry_out(steps, made, target)?;
        Ok(Ok(reply))
    }

    /// Takes the steps of a scaling to `target` uniform ranges, and returns the reply. `made` is the number of new
    /// shards that the steps make. All memory is allocated before the first step. If memory runs out, the stream is
    /// unchanged.
    fn carry_out(&mut self, steps: &[ScaleStep], made: u32, target: u32) -> Result<Reply, Memory>
        requires target { IsShardCount target }
        requires plan { IsPlan self.old target steps.now }
        requires made { made ≡ made_by steps.now }
        ensures answered { IfOk result (λ reply. Decides self.old self.new (Ok reply) (λ log actor.
            scale_where false log self.old.clock actor self.old.name self.old.no target)) }
        ensures fields { KeepsFields self.new self.old }
        ensures changed { OnOk result (KeepsRetention self.old self.new) }
        ensures kept { OnErr result (self.new ≡ self.old) }
    {
        let alloc = *self.logs.allocator();
        let name = self.name.copy(alloc)?;
        let before = self.open_count();
        let mut entries = Vec::with_capacity(alloc, steps.len())?;
        reserve_shards(&mut self.tree, &mut self.logs, &mut self.windows, made)?;
        let first = self.next;
        take_steps(
            &mut self.tree,
            self.no,
            steps,
            first.0,
            self.clock,
            &mut entries,
        );
        add_shards(alloc, &mut self.logs, &mut self.windows, made, first);
        self.next = Seq(first.0 + steps.len() as u64);
        self.clock_before = self.clock;
        self.cut_before = self.cut;
        Ok(Reply::Scaled {
            name,
            before,
            target,
            entries: Items::from_vec(entries),
        })
    }
}
