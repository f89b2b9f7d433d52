//! The largest values of the tasks' numeric arguments.
ghost use Rattle.std.specs.Prelude.{◌≡◌};
ghost use Rattle.kds_cli_words.specs.declared.ranges.TheConstants.{MOST_MEMBERS, MOST_PORT, MOST_RECORDS};

/// The largest port number (RFC 9293, section 3.1).
pub const MOST_PORT: u64 = 65_535;

/// The most connections that are served at once, and also the most workers of a drill.
pub const MOST_MEMBERS: u64 = 64;

/// The most records of a drill.
pub const MOST_RECORDS: u64 = 1_000_000;

/// States the value of each constant. The definitions in `specs` refer to the constants by name and don't show their
/// values.
pub fn limits()
    ensures port { MOST_PORT ≡ 65535 }
    ensures members { MOST_MEMBERS ≡ 64 }
    ensures records { MOST_RECORDS ≡ 1000000 }
{}
