//! Laws that state the values of the limits. A law is a theorem, stated as the contract of a function without
//! parameters. The definitions in `specs/` refer to each limit by the name of its constant in the code, so these
//! definitions don't show a limit's value. The laws state the values, so a changed constant contradicts a law in this
//! file.
ghost use Rattle.std.specs.Prelude.{◌≡◌};
ghost use Rattle.kds_defs.specs.declared.limits.TheConstants.{LIVE_STREAMS, OPEN_SHARDS, LEAST_SHARDS, MOST_SHARDS};
ghost use Rattle.kds_defs.specs.declared.limits.TheConstants.{KEY_CHARACTERS, RECORD_BYTES, MANY_ITEMS, MANY_BYTES};
ghost use Rattle.kds_defs.specs.declared.limits.TheConstants.{TOKEN_LIFE, FIRST_HOURS, LEAST_HOURS, MOST_HOURS, HOUR};
ghost use Rattle.kds_defs.specs.declared.limits.TheConstants.{BATCH_BYTES, MOST, PENDING_READS};
ghost use Rattle.kds_defs.specs.declared.limits.TheConstants.{SECOND, SECOND_RECORDS, SECOND_BYTES};
ghost use Rattle.kds_defs.specs.declared.limits.TheConstants.{DEFAULT_RECORDS, DEFAULT_SHARDS, DEFAULT_DESCRIBED};
ghost use Rattle.kds_defs.specs.declared.limits.TheConstants.{DEFAULT_NAMES, MOST_SECONDS};
ghost use Rattle.kds_defs.specs.declared.limits.TheConstants.{API_ACTOR, MOST_ACTOR, OPERATION_BYTES, LINE_BYTES};
ghost use Rattle.kds_defs.specs.declared.limits.TheConstants.{INPUT_BYTES};

/// States the limits on streams, shards, records, batches, tokens and retention (Kinesis API Reference, the operations;
/// Service quotas).
pub fn service_limits()
    ensures streams { LIVE_STREAMS ≡ 64 }
    ensures open_shards { OPEN_SHARDS ≡ 500 }
    ensures least_shards { LEAST_SHARDS ≡ 1 }
    ensures most_shards { MOST_SHARDS ≡ 500 }
    ensures key { KEY_CHARACTERS ≡ 256 }
    ensures record { RECORD_BYTES ≡ 10485760 }
    ensures many { MANY_ITEMS ≡ 500 }
    ensures many_bytes { MANY_BYTES ≡ 10485760 }
    ensures tokens { TOKEN_LIFE ≡ 300000 }
    ensures first_hours { FIRST_HOURS ≡ 24 }
    ensures least_hours { LEAST_HOURS ≡ 24 }
    ensures most_hours { MOST_HOURS ≡ 8760 }
    ensures hour { HOUR ≡ 3600000 }
    ensures batch { BATCH_BYTES ≡ 10485760 }
    ensures most { MOST ≡ 10000 }
{}

/// States how many records and bytes a shard accepts within a second if the limits on its throughput are enforced
/// (Kinesis Data Streams Developer Guide, Quotas and Limits).
pub fn rate_limits()
    ensures second { SECOND ≡ 1000 }
    ensures records { SECOND_RECORDS ≡ 1000 }
    ensures bytes { SECOND_BYTES ≡ 1048576 }
{}

/// States how many items a request without a limit gets at most, and the greatest time, in seconds, that a request may
/// name (Kinesis API Reference, the operations).
pub fn request_limits()
    ensures records { DEFAULT_RECORDS ≡ 10000 }
    ensures shards { DEFAULT_SHARDS ≡ 1000 }
    ensures described { DEFAULT_DESCRIBED ≡ 100 }
    ensures names { DEFAULT_NAMES ≡ 100 }
    ensures seconds { MOST_SECONDS ≡ 4611686018427387 }
{}

/// States that a tenure (one worker's hold on a lease) may have at most eight undelivered reads. A read counts as
/// delivered once the command Give has reported that the read's batch was processed.
pub fn lease_limits()
    ensures { PENDING_READS ≡ 8 }
{}

/// States the limits on schedules, which are recorded workloads: the greatest actor number, and the greatest lengths of
/// an operation's name, of a line and of the whole input. It also states the actor number of the requests to the stream
/// service.
pub fn schedule_limits()
    ensures api { API_ACTOR ≡ 0 }
    ensures actors { MOST_ACTOR ≡ 999 }
    ensures operation { OPERATION_BYTES ≡ 64 }
    ensures line { LINE_BYTES ≡ 16777216 }
    ensures input { INPUT_BYTES ≡ 1073741824 }
{}
