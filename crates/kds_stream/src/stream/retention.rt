//! Changes the retention period of a stream.
ghost use Rattle.std.specs.Prelude.{◌≡◌, nat_lt, if◌then◌else◌, OnErr, OnOk};
ghost use Rattle.kds_defs.specs.Lawful.{IsRetention};
ghost use Rattle.kds_defs.specs.StreamCommands.{keep};
ghost use Rattle.kds_stream.specs.Showing.{Decides};
ghost use Rattle.kds_stream.specs.Value.{IsKeptAt, KeepsFields};

use crate::stream::Stream;
use crate::stream::clock::{cut_at, later_cut};
use kds_defs::{Answer, Refusal, Reply};

/// Whether a change of the retention period from `present` to `hours` hours goes in the wrong direction: an increase
/// (`raise` is true) to fewer hours, or a decrease to more hours.
fn is_wrong_way(hours: u32, present: u32, raise: bool) -> bool
    ensures { result ≡ (if raise then nat_lt hours present else nat_lt present hours) }
{
    if raise {
        hours < present
    } else {
        present < hours
    }
}

impl Stream {
    /// Sets the retention period to `hours` hours (Kinesis API Reference, IncreaseStreamRetentionPeriod,
    /// DecreaseStreamRetentionPeriod). At the time of the change, a record is trimmed if the old or the new retention
    /// period trims it. The change is refused with `BadRetention` if and only if it is an increase (`raise` is true) to
    /// fewer hours than at present, or a decrease to more hours.
    pub fn keep(&mut self, hours: u32, raise: bool) -> Answer
        requires { IsRetention hours }
        ensures answered { Decides self.old self.new result
            (λ log actor. keep log self.old.clock actor self.old.no hours raise) }
        ensures fields { KeepsFields self.new self.old }
        ensures same { OnErr result (self.new ≡ self.old) }
        ensures changed { OnOk result (IsKeptAt hours self.old self.new) }
    {
        if is_wrong_way(hours, self.hours, raise) {
            return Err(Refusal::BadRetention);
        }
        self.hours = hours;
        self.cut = later_cut(self.cut, cut_at(self.clock, hours));
        self.clock_before = self.clock;
        self.cut_before = self.cut;
        Ok(Reply::Done)
    }
}
