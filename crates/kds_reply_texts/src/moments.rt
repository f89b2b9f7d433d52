//! Moments as they appear in replies.
ghost use Rattle.std.specs.Prelude.{◌≡◌, ◌/◌};

use kds_base::Moment;

/// The number of milliseconds in a second.
const SECOND: u64 = 1000;

/// Returns the moment in whole seconds, rounded down (Kinesis API Reference, Record, ApproximateArrivalTimestamp).
pub fn seconds(moment: Moment) -> u64
    ensures { result ≡ moment / 1000 }
{
    moment.ms() / SECOND
}
