//! The constants of a drill. A drill is a self-test whose input is generated from a number.
ghost use Rattle.std.specs.Prelude.{◌≡◌};
ghost use Rattle.kcl_drill.specs.declared.limits.TheConstants.{FIRST_SHARDS, MEMBER_TURNS, MOST_OPEN, MOST_RECORDS};
ghost use Rattle.kcl_drill.specs.declared.limits.TheConstants.{MOST_WORKERS, RECORDS_A_TURN, RESHARD_EVERY, TICK};

/// The number of shards with which the drill's stream is created.
pub const FIRST_SHARDS: u32 = 4;

/// A shard is split only while fewer than this many shards are open.
pub const MOST_OPEN: usize = 16;

/// The number of records from one resharding to the next. A resharding splits a shard or merges two shards, if
/// possible.
pub const RESHARD_EVERY: u64 = 500;

/// The maximum number of a drill's records.
pub const MOST_RECORDS: u64 = 1_000_000;

/// The maximum number of a drill's workers.
pub const MOST_WORKERS: u64 = 64;

/// The fixed part of the number of turns that each worker makes. A turn is one command of the worker. In addition, each
/// worker makes one turn for every `RECORDS_A_TURN` records of the drill.
pub const MEMBER_TURNS: u64 = 200;

/// The number of records for which each worker makes one turn, in addition to its `MEMBER_TURNS` turns.
pub const RECORDS_A_TURN: u64 = 100;

/// The time between two consecutive turns of a worker, in milliseconds.
pub const TICK: u64 = 50;

/// States the value of each constant. The definitions in `specs` refer to the constants by name.
pub fn drill_limits()
    ensures first { FIRST_SHARDS ≡ 4 }
    ensures open { MOST_OPEN ≡ 16 }
    ensures reshard { RESHARD_EVERY ≡ 500 }
    ensures records { MOST_RECORDS ≡ 1000000 }
    ensures workers { MOST_WORKERS ≡ 64 }
    ensures turns { MEMBER_TURNS ≡ 200 }
    ensures more { RECORDS_A_TURN ≡ 100 }
    ensures tick { TICK ≡ 50 }
{}
