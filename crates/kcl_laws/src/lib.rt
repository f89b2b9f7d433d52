//! The laws that are true of every history. A law is a theorem, stated as the contract of a function that has no
//! parameters and does nothing. A history is a list of turns. A turn is a command with its time and its sender, which
//! is called the actor. The history's journal is the list of events that its accepted commands left, one event per
//! line. A row is a lease in the lease table, and its key is its shard. A tenure is one worker's hold on a row, from
//! the moment at which the worker takes the row until the row is freed or taken again. A tenure must be opened before
//! it can read. To mark a row is to set its checkpoint. A read of a tenure is given if it counts as delivered to the
//! processor. A line of a journal is good if the command that it records would be accepted after the lines before it. A
//! journal is legal if each of its lines is good.
#![tactic(auto)]

ghost use Rattle.std.specs.Prelude.{ℕ, true, List, [], ◌∷◌, ◌≤◌, ◌≡◌, Option, Some, None, Err};
ghost use Rattle.std.specs.List.{AllByRecursion};
ghost use Rattle.kcl_laws.specs.Acting.{acting, lost_answer, ActsBy, HasLost};
ghost use Rattle.kcl_laws.specs.Deliveries.{AreReadOn, AreWhole};
ghost use Rattle.kcl_laws.specs.Makings.{HasExpired, times_made};
ghost use Rattle.kcl_laws.specs.Recorded.{AreDrawn, HasFrom, IsFromHorizon, IsSized};
ghost use Rattle.kcl_laws.specs.RowLines.{Making, IsToldRow, last_bound, making};
ghost use Rattle.kcl_laws.specs.ShownLines.{shown_journal};
ghost use Rattle.kcl_laws.specs.TenureLines.{IsToldTenure, Told, taking};
ghost use Rattle.kds_base.specs.declared.lease_key.Checkpoint.TheVariants.{At};
ghost use Rattle.kds_base.specs.declared.lease_key.ShardRef.{ShardRef};
ghost use Rattle.kds_defs.specs.declared.command.Turn.{Turn};
ghost use Rattle.kds_defs.specs.declared.reply.Refusal.{Refusal};
ghost use Rattle.kds_defs.specs.declared.reply.Refusal.TheVariants as refusal;
ghost use Rattle.kds_defs.specs.declared.reply.Row.{Row};
ghost use Rattle.kds_defs.specs.Histories.{journal, clock, answer};
ghost use Rattle.kds_defs.specs.Journal.{Line, Journal};
ghost use Rattle.kds_defs.specs.Lawful.{IsHistory};
ghost use Rattle.kds_defs.specs.Leases.{TenureState, start_position, row, tenure};
ghost use Rattle.kds_defs.specs.Legal.{IsGood, IsLegal, IsReached};
ghost use Rattle.kds_defs.specs.Records.{next_number, records};
ghost use Rattle.kds_defs.specs.Safe.{HasPartitions, ArePlaced, AreCovered, AreInLine, HoldsRow, AreFenced, IsSafe};
ghost use Rattle.kds_defs.specs.Safe.{RiseFrom, all_numbers};
ghost use Rattle.kds_defs.specs.Shards.{shard_at, shards, start_of};
ghost use Rattle.kds_defs.specs.StreamCommands.{last_number};
ghost use Rattle.kds_defs.specs.Streams.{was_made};
ghost use Rattle.kds_defs.specs.Tiled.{AreNumbered};

/// In each stream, the ranges of the open shards partition the hash keys: each hash key belongs to exactly one open
/// shard.
pub fn partition()
    ensures { (h : List Turn) → IsHistory h → HasPartitions (journal h) }
{}

/// Each put stores its record in the open shard that the record's hash key belongs to. The puts, splits and merges of a
/// stream get the sequence numbers 1, 2, 3 and so on.
pub fn one_home()
    ensures { (h : List Turn) → IsHistory h → ArePlaced (journal h) }
{}

/// The floor of a row is the sequence number at which reading of the row's shard begins. Each record from this floor up
/// to the row's checkpoint was delivered in a tenure of the row's key, or has been trimmed. Each tenure reads its
/// records in increasing order of their sequence numbers. All this is true at the history's clock, which is the latest
/// time of its turns, and at each later time.
pub fn coverage()
    ensures { (h : List Turn) → IsHistory h → (c : ℕ) → clock h ≤ c → AreCovered (journal h) c }
{}

/// If a row begins at the trim horizon, each record of its shard up to the row's checkpoint was delivered in a tenure
/// of the row's key, or has been trimmed. This is true at the history's clock and at each later time.
pub fn whole_coverage()
    ensures { (h : List Turn) → IsHistory h → (c : ℕ) → clock h ≤ c → AreWhole (journal h) c }
{}

/// States which records were delivered or read, for each tenure whose key has a row. The delivered position of the
/// tenure is one above the last sequence number in its given reads. Its reach is one above the last sequence number
/// that it read. When the tenure begins, both are the position at which it begins to read. Each record at or above the
/// row's floor and below the delivered position was delivered or has been trimmed. Each record at or above the floor
/// and below the reach was read by the tenure, or was delivered, or has been trimmed. Each tenure reads its records in
/// increasing order of their sequence numbers, beginning at the position at which it begins to read.
pub fn delivery()
    ensures reads { (h : List Turn) → IsHistory h → (c : ℕ) → clock h ≤ c → AreReadOn (journal h) c }
    ensures begins { (h : List Turn) → IsHistory h → (t : ℕ) (T : TenureState) → tenure (journal h) t ≡ Some T
        → RiseFrom (start_position T.start) (all_numbers T.reads) }
{}

/// For each key, a row is made at most once. So all tenures of a key are tenures of the same row. A row is removed only
/// after its shard has expired. A shard has expired if it has been closed for the retention period or its stream was
/// deleted. An expired shard stays expired after each further line of the journal and at each later time.
pub fn one_row()
    ensures once { (h : List Turn) → IsHistory h → (key : ShardRef) → times_made (journal h) key ≤ 1 }
    ensures expired { (log : Journal) (line : Line) → IsLegal (line ∷ log) → (c : ℕ) (key : ShardRef)
        → was_made log key.stream ≡ true
        → HasExpired log line.clock key → HasExpired (line ∷ log) c key }
    ensures later { (log : Journal) (c d : ℕ) (key : ShardRef) → c ≤ d → HasExpired log c key → HasExpired log d key }
{}

/// A tenure reads only after it was opened. It is opened only after each parent of its shard has expired, or has a row
/// whose checkpoint is the parent's end.
pub fn lineage()
    ensures { (h : List Turn) → IsHistory h → AreInLine (journal h) }
{}

/// Only the actor of the tenure that holds a row renews, frees or marks the row, or opens that tenure. Suppose that a
/// tenure doesn't hold its row. Then each command that would renew, free or mark the row for this tenure, or would open
/// this tenure, is refused and adds no line to the journal. If such a command comes from the tenure's own actor, the
/// refusal is `Lost` with the number of the tenure that holds the row, or 0 if no tenure does. If it comes from another
/// actor, the refusal is `NotYours`.
pub fn fence()
    ensures fenced { (h : List Turn) → IsHistory h → AreFenced (journal h) }
    ensures stale { (h : List Turn) (turn : Turn) (t : ℕ) → acting turn.what ≡ Some t
        → (HoldsRow (journal h) turn.by t → ⊥) → journal (turn ∷ h) ≡ journal h }
    ensures lost { (h : List Turn) (turn : Turn) (t : ℕ) (T : TenureState) → ActsBy (journal h) turn t T
        → T.by ≡ turn.by → HasLost (journal h) T t → answer h turn ≡ lost_answer (journal h) T }
    ensures not_yours { (h : List Turn) (turn : Turn) (t : ℕ) (T : TenureState) → ActsBy (journal h) turn t T
        → (T.by ≡ turn.by → ⊥) → answer h turn ≡ Err refusal.NotYours }
{}

/// States the invariant `IsReached`: the journal is legal, and none of its lines is later than the clock `c`. The empty
/// journal meets the invariant. Each good line and each later clock preserve the invariant. The journal of each history
/// meets the invariant at the history's clock. The invariant implies the laws `partition`, `one_home`, `coverage`,
/// `lineage` and `fence`. A refused turn adds no line to the journal.
pub fn step()
    ensures empty { (c : ℕ) → IsReached [] c }
    ensures line { (log : Journal) (line : Line) → IsLegal log → IsGood log line → IsReached (line ∷ log) line.clock }
    ensures later { (log : Journal) (c d : ℕ) → IsReached log c → c ≤ d → IsReached log d }
    ensures history { (h : List Turn) → IsHistory h → IsReached (journal h) (clock h) }
    ensures refused { (h : List Turn) (turn : Turn) (r : Refusal) → answer h turn ≡ Err r
        → journal (turn ∷ h) ≡ journal h }
    ensures safe { (log : Journal) (c : ℕ) → IsReached log c → IsSafe log c }
{}

/// States how each field of a row follows from the lines of a journal (Kinesis Client Library, leases). The journal can
/// be any list of lines, even if it isn't legal. A key has a row if a line made a row for the key and no later line
/// removed the row. The line that made the row names the row's origin. The counter, the checkpoint, the owner, the
/// tenure and the switches depend only on the lines after that line. The counter is the number of times that the row
/// was taken, renewed, freed or marked. The checkpoint is the one that the last mark set. Before the first mark, the
/// checkpoint is the trim horizon if the row's origin is the trim horizon, and otherwise the number right below the
/// row's floor. If the row was freed after the last take, it has no owner and no tenure. Otherwise, the owner and the
/// tenure are those of the last take. The switches (Kinesis Client Library, ownerSwitchesSinceCheckpoint) are the
/// number of times that the row was taken from another owner since the last mark. The parents are those of the shard.
/// The floor is the shard's starting sequence number if the origin is the trim horizon, and otherwise the sequence
/// number at which reading from the origin begins.
pub fn rows()
    ensures removed { (log : Journal) (key : ShardRef) → making (last_bound log key) ≡ None → row log key ≡ None }
    ensures made { (log : Journal) (key : ShardRef) (m : Making) → making (last_bound log key) ≡ Some m
        → IsToldRow log key m }
{}

/// States how each field of a tenure follows from the lines of a journal. The journal can be any list of lines, even if
/// it isn't legal. The n-th take in the journal begins tenure n. The line of this take names the tenure's actor and
/// key. The tenure begins at the checkpoint that the row had before the take. The tenure is opened if a later line
/// opens it. The tenure's reads are those that the later lines record for it, in the same order. If `k` later lines
/// record that a read of the tenure was given, the first `k` reads of the tenure are given.
pub fn tenures()
    ensures never { (log : Journal) (t : ℕ) → taking log t ≡ None → tenure log t ≡ None }
    ensures begun { (log : Journal) (t : ℕ) (begun : Told) → taking log t ≡ Some begun → IsToldTenure log t begun }
{}

/// The shards of a stream are numbered 0, 1, 2 and so on, in the order of the stream's list of shards. The sequence
/// numbers of a shard's records increase. They are at least the shard's starting sequence number, and below the next
/// sequence number of the stream. The next sequence number is at most the greatest `u64`. The payload and the partition
/// key of a record together fit into one batch.
pub fn shard_records()
    ensures shards { (log : Journal) (s : ℕ) → AreNumbered 0 (shards log s) }
    ensures numbers { (log : Journal) → IsLegal log → (s sh : ℕ) → AreDrawn log s sh }
    ensures next { (log : Journal) → IsLegal log → (s : ℕ) → next_number log s ≤ last_number }
    ensures sizes { (h : List Turn) → IsHistory h → (s sh : ℕ) → AllByRecursion IsSized (records (journal h) s sh) }
{}

/// If a row begins at the trim horizon, its floor is the starting sequence number of its shard. If the checkpoint of
/// such a row is a sequence number, the shard has a record with that sequence number or a greater one.
pub fn checkpoints()
    ensures floor { (h : List Turn) → IsHistory h → (key : ShardRef) (r : Row) → IsFromHorizon (journal h) key r
        → r.floor ≡ start_of (shard_at (journal h) key.stream key.shard) }
    ensures reached { (h : List Turn) → IsHistory h → (key : ShardRef) (r : Row) (q : ℕ)
        → IsFromHorizon (journal h) key r
        → r.checkpoint ≡ At q → HasFrom q (records (journal h) key.stream key.shard) }
{}

/// The text of a journal doesn't show the bytes of partition keys and payloads. Whether a journal is legal doesn't
/// depend on these bytes. If a journal is legal and none of its lines is later than the time `c`, the same is true of
/// the journal in which zeros replace these bytes.
pub fn shown()
    ensures { (log : Journal) (c : ℕ) → IsReached log c → IsReached (shown_journal log) c }
{}
