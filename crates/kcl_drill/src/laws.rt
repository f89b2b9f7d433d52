//! Laws of drills. A law is a theorem about definitions, stated as the contract of a function that does nothing. A
//! drill is a self-test whose input is generated from a number. The laws state that the text of a drill's summary
//! depends only on the drill's number and on the number of records. A history is a list of commands with their senders
//! and times. Its clock is the latest of these times, and its journal is the event log that the commands leave.
ghost use Rattle.std.specs.Prelude.{ℕ, ◌==◌, false, List, ◌≡◌, ◌<◌, ◌≤◌, reverse, Some};
ghost use Rattle.kds_defs.specs.declared.command.Turn.{Turn};
ghost use Rattle.kds_defs.specs.Histories.{clock, journal};
ghost use Rattle.kds_defs.specs.Lawful.{IsHistory};
ghost use Rattle.kds_defs.specs.Streams.{stream_named, trim_floor};
ghost use Rattle.kcl_drill.specs.Apart.{AreBasic, LEAST_RETENTION, service_turns, stream_lines};
ghost use Rattle.kcl_drill.specs.Fed.{IsDrill, IsFed, commands_in};
ghost use Rattle.kcl_drill.specs.Generated.{drill_name, generated};
ghost use Rattle.kcl_drill.specs.Summed.{AreDrained, drill_text, summary_text};

use kcl_laws::step;

/// Consider the lines on streams in the journal of a history, without the times of these lines. They are the lines that
/// the commands to the stream service alone would leave. So the commands on leases don't change these lines, and the
/// times of the commands don't change them either. There are two conditions. The clock is below 24 hours, so that no
/// record is trimmed (expired). No command scales a stream, or switches the throughput limits of a stream on or off.
pub fn apart()
    ensures { (h : List Turn) → IsHistory h → AreBasic h → clock h < LEAST_RETENTION
        → stream_lines (journal h) ≡ stream_lines (journal (service_turns h)) }
{
    step()
}

/// The trim floor of a stream is a time. Only records that arrived before this time are trimmed, and only shards that
/// were closed before this time have expired. While the clock is below 24 hours, the trim floor of each stream is 0. So
/// no record is trimmed, and no shard has expired.
pub fn untrimmed()
    ensures { (h : List Turn) (c s : ℕ) → IsHistory h → clock h ≤ c → c < LEAST_RETENTION
        → trim_floor (journal h) c s ≡ 0 }
{
    step()
}

/// The text of the summary depends only on the drill's number and on the number of records (clause `text`). It doesn't
/// matter which actors (senders) sent the commands, or which commands on leases came between the generator's commands.
/// There are three conditions. The clock is below 24 hours. The commands to the stream service are the generator's
/// commands in their order. Each listed shard (each shard that ListShards returns) has a lease whose checkpoint says
/// that the shard was read to its end. Under the first two conditions, the drill's stream exists and has the stream
/// number 1 (clause `live`).
pub fn one_text()
    ensures live { (h : List Turn) (number records : ℕ) → IsDrill h number records
        → stream_named (journal h) drill_name ≡ Some 1 }
    ensures text { (h : List Turn) (number records : ℕ) → IsDrill h number records
        → AreDrained (journal h) (clock h) → summary_text (journal h) (clock h) ≡ drill_text number records }
{
    step()
}

/// In whatever order the threads of a drill sent their commands, the commands to the stream service are the generator's
/// commands in their order. There are three conditions. The actor (sender) `root` sent the generator's first command.
/// The actor `feeder` then sent the generator's other commands in their order. All commands of other actors are on
/// leases.
pub fn one_order()
    ensures { (number records root feeder : ℕ) (h : List Turn) → (root == feeder) ≡ false
        → IsFed number records root feeder h
        → commands_in (service_turns h) ≡ reverse (generated number records) }
{}
