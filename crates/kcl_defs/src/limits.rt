//! The default settings of a worker, and the law that states their values. The definition `usual_settings` refers to
//! each default by the name of its constant in the code. The law states the values as numbers, so a changed constant
//! contradicts the law.
ghost use Rattle.std.specs.Prelude.{◌≡◌};
ghost use Rattle.kcl_defs.specs.declared.limits.TheConstants.{USUAL_FAILOVER, USUAL_LIMIT};

/// The default failover time, in milliseconds. Another worker's lease counts as expired once it hasn't been renewed for
/// longer than this time (Kinesis Client Library, failover time).
pub const USUAL_FAILOVER: u64 = 10_000;

/// The most records that one Read of a worker may return, by default (Kinesis Client Library, max records).
pub const USUAL_LIMIT: u32 = 1_000;

/// States the values of the default settings.
pub fn usual_numbers()
    ensures failover { USUAL_FAILOVER ≡ 10000 }
    ensures limit { USUAL_LIMIT ≡ 1000 }
{}
