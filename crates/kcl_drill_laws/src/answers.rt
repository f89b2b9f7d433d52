//! Laws of the commands on leases: how the commands are answered, and what they leave unchanged. A tenure is one
//! worker's hold on a lease. A read waits until the command Give reports its records as processed.
ghost use Rattle.std.specs.Prelude.{ℕ, ◌≡◌, ◌+◌, ◌<◌, ◌≤◌, ◌==◌, true, false, length, List, ◌∷◌, ◌++◌, Some};
ghost use Rattle.kds_base.specs.declared.lease_key.ShardRef.{ShardRef};
ghost use Rattle.kds_defs.specs.declared.command.Target.{Target};
ghost use Rattle.kds_defs.specs.declared.command.Turn.{Turn};
ghost use Rattle.kds_defs.specs.declared.limits.TheConstants.{PENDING_READS};
ghost use Rattle.kds_defs.specs.declared.reply.Row.{Row};
ghost use Rattle.kds_defs.specs.Histories.{clock, journal};
ghost use Rattle.kds_defs.specs.Journal.{Journal};
ghost use Rattle.kds_defs.specs.Keys.{is_listed_key};
ghost use Rattle.kds_defs.specs.Leases.{ReadDone, row};
ghost use Rattle.kds_defs.specs.StreamCommands.{last_number};
ghost use Rattle.kcl_drill_laws.specs.Holding.{Holding, Holds, IsGivenSo, IsMarkedSo, IsOpenedSo, IsReadSo, IsTakenSo};
ghost use Rattle.kcl_drill_laws.specs.Holding.{MayMark, MayOpen, MayTake, after_give, after_mark, after_read};
ghost use Rattle.kcl_drill_laws.specs.Holding.{begun_from};
ghost use Rattle.kcl_drill_laws.specs.Holding.{given_line, marked_line, opened_line, read_line, taken_line};
ghost use Rattle.kcl_drill_laws.specs.Parents.{AreCounted, AreFewRecords, AreParentsClosed};
ghost use Rattle.kds_defs.specs.Lawful.{IsHistory};
ghost use Rattle.kds_defs.specs.Legal.{IsLegal};
ghost use Rattle.kds_defs.specs.Shards.{shards};
ghost use Rattle.kcl_drill_laws.specs.Leasing.{AreOnLeases, HasSameFloors, HasSameStreams};

/// States how the commands of a tenure, one worker's hold on a lease, are answered. A lease whose checkpoint isn't the
/// shard's end can be taken by a command that names the lease's present counter. Right after the lease was taken, the
/// shard can be opened if it is listed (ListShards returns it) and the checkpoint of each listed parent is the parent's
/// end. While the tenure holds the lease, it can read at its read position if the shard is listed and fewer than eight
/// reads wait. The tenure can report the oldest waiting read as processed. It can move the checkpoint forward, at most
/// to the end of the records that it has reported as processed. The lease's counter and the number of tenures must be
/// below their maximum (Kinesis Client Library, leases).
pub fn held_answers()
    ensures take { (log : Journal) (c actor owner : ℕ) (key : ShardRef) (r : Row) → row log key ≡ Some r → MayTake log r
        → IsTakenSo log c actor owner key r }
    ensures opening { (log : Journal) (c d actor owner : ℕ) (key : ShardRef) (r : Row) → row log key ≡ Some r
        → MayOpen (taken_line log d actor key r owner ∷ log) c key → IsOpenedSo log c d actor owner key r }
    ensures read { (log : Journal) (c limit : ℕ) (x : Holding) → Holds log x → length x.waiting < PENDING_READS
        → is_listed_key log c x.key ≡ true → IsReadSo log c x limit }
    ensures give { (log : Journal) (c : ℕ) (x : Holding) (r : ReadDone) (rest : List ReadDone) → Holds log x
        → x.waiting ≡ r ∷ rest
        → IsGivenSo log c x r }
    ensures mark { (log : Journal) (c : ℕ) (x : Holding) (target : Target) → Holds log x → MayMark x target
        → (x.counter == last_number) ≡ false
        → IsMarkedSo log c x target }
{}

/// States how a tenure and its lease change with each event of the tenure in the journal, the machine's event log.
/// There are four cases: the lease is taken and the shard is opened, a batch is read, the oldest waiting read is
/// reported as processed, and a checkpoint is set.
pub fn held_states()
    ensures begun { (log : Journal) (c d actor owner : ℕ) (key : ShardRef) (r : Row) → row log key ≡ Some r
        → Holds (opened_line log d actor ∷ taken_line log c actor key r owner ∷ log) (begun_from log actor key r) }
    ensures read { (log : Journal) (c limit : ℕ) (x : Holding) (r : ReadDone) → Holds log x
        → Holds (read_line c x limit r ∷ log) (after_read x r) }
    ensures given { (log : Journal) (c : ℕ) (x : Holding) (r : ReadDone) (rest : List ReadDone) → Holds log x
        → x.waiting ≡ r ∷ rest
        → Holds (given_line c x ∷ log) (after_give x r rest) }
    ensures marked { (log : Journal) (c : ℕ) (x : Holding) (target : Target) → Holds log x
        → Holds (marked_line c x target ∷ log) (after_mark x target) }
{}

/// Commands on leases don't change the streams: their names, shards, records, next sequence numbers and retention
/// periods stay the same.
pub fn lease_turns()
    ensures { (more h : List Turn) → AreOnLeases more → HasSameStreams (journal (more ++ h)) (journal h) }
{}

/// Commands on leases don't change which streams exist. If no command so far has a time after `c`, they don't change
/// the trim horizon that a stream has at the time `c` either.
pub fn lease_floors()
    ensures { (more h : List Turn) (c : ℕ) → AreOnLeases more → clock (more ++ h) ≤ c
        → HasSameFloors c (journal (more ++ h)) (journal h) }
{}

/// A shard's parents have smaller shard numbers than the shard, and are closed (Kinesis API Reference, Shard).
pub fn closed_parents()
    ensures { (log : Journal) → IsLegal log → (s : ℕ) → AreParentsClosed (shards log s) }
{}

/// After `n` commands of any kind, each lease's counter and each tenure's number is at most `n`.
pub fn lease_counts()
    ensures { (h : List Turn) → AreCounted h }
{}

/// After `n` commands, a shard has at most 500 * `n` records, since one command puts at most 500 records (Kinesis API
/// Reference, PutRecords).
pub fn record_counts()
    ensures { (h : List Turn) → IsHistory h → AreFewRecords h }
{}
