//! The laws that the proof of a drain uses. A drain reads every listed shard (each shard that ListShards returns) to
//! its end and checkpoints there.
ghost use Rattle.std.specs.Prelude.{ℕ, max, List};
ghost use Rattle.kds_defs.specs.declared.command.Turn.{Turn};
ghost use Rattle.kds_defs.specs.Histories.{clock};
ghost use Rattle.kcl_drill_drain.specs.Draining.{CanDrain};
ghost use Rattle.kcl_drill_drain.specs.Laws.{HasLaws};

/// States the facts `HasLaws`. These are facts about every history that can be drained (`CanDrain`), and about the
/// commands on leases that follow such a history. A history is the list of the commands that a machine has answered.
pub fn drain_laws()
    ensures { (h : List Turn) (moment : ℕ) → CanDrain h moment → HasLaws h (max (clock h) moment) }
{
    kcl_laws::step();
    kcl_laws::checkpoints();
    kcl_laws::shard_records();
    kcl_drill_laws::closed_parents();
    kcl_drill_laws::lease_counts();
    kcl_drill_laws::lease_floors();
    kcl_drill_laws::lease_turns();
    kcl_drill_laws::record_counts();
}
