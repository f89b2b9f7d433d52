//! Laws of the batches that are read from a log.
ghost use Rattle.std.specs.Prelude.{◌≢◌, ℕ, ◌≤◌, List, [], length};
ghost use Rattle.kds_defs.specs.Records.{Logged, beginning};
ghost use Rattle.kds_log.specs.Log.{FirstFits, IsPrefix, IsWithin};

/// States that `beginning` defines the longest prefix of the records `rs` that has at most `limit` records and at most
/// `room` bytes of payloads and partition keys. This batch isn't empty if `limit` is at least 1 and the records begin
/// with a record of at most `room` bytes.
pub fn longest()
    ensures prefix { (limit room : ℕ) (rs : List Logged) → IsPrefix (beginning limit room rs) rs }
    ensures within { (limit room : ℕ) (rs : List Logged) → IsWithin limit room (beginning limit room rs) }
    ensures no_longer { (limit room : ℕ) (rs front : List Logged) → IsPrefix front rs → IsWithin limit room front
        → length front ≤ length (beginning limit room rs) }
    ensures some { (limit room : ℕ) (rs : List Logged) → 1 ≤ limit → FirstFits room rs → beginning limit room rs ≢ [] }
{}
