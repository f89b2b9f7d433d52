//! The clock of a stream, and the trimming of its records. Records that arrived at or before the trim horizon are
//! trimmed.
ghost use Rattle.std.specs.Prelude.{◌≡◌, ◌≤◌};
ghost use Rattle.kds_defs.specs.Journal.{Journal};
ghost use Rattle.kds_stream.specs.Showing.{Shows};
ghost use Rattle.kds_stream.specs.Value.{cut_at, later_cut, settled};

use crate::stream::Stream;
use kds_base::{Moment, next_of};
use kds_defs::limits::HOUR;
use kds_stream_logs::settle_at;

/// Returns the trim horizon at the time `clock` for a retention period of `hours` hours: the time `clock` minus this
/// period. Returns `None` if the trim horizon would be before time 0.
pub(super) fn cut_at(clock: Moment, hours: u32) -> Option<Moment>
    ensures { result ≡ cut_at clock hours }
{
    let retention = u64::from(hours) * HOUR;
    let ms = clock.ms().checked_sub(retention)?;
    Moment::new(ms)
}

/// Returns the later of two trim horizons. `None` is earlier than every time.
pub(super) fn later_cut(a: Option<Moment>, b: Option<Moment>) -> Option<Moment>
    ensures { result ≡ later_cut a b }
{
    match (a, b) {
        (Some(a), Some(b)) => Some(if a < b { b } else { a }),
        (Some(a), None) => Some(a),
        (None, b) => b,
    }
}

impl Stream {
    /// Raises the stream's clock to `clock`, and moves the trim horizon with it. The newly trimmed records aren't
    /// removed from the logs yet.
    pub fn advance(&mut self, clock: Moment)
        requires { self.old.clock ≤ clock }
        ensures value { self.new ≡ record self.old {
          clock = clock;
          cut = later_cut self.old.cut (cut_at clock self.old.hours);
          clock_before = self.old.clock;
          cut_before = self.old.cut;
        } }
        ensures shows { (log : Journal) → Shows self.old log → Shows self.new log }
    {
        self.clock_before = self.clock;
        self.cut_before = self.cut;
        self.clock = clock;
        self.cut = later_cut(self.cut, cut_at(clock, self.hours));
    }

    /// Removes the trimmed records of one log. Each call handles the next log in rotation. If there are `n` logs, `n`
    /// calls handle each log once. No reply to a client depends on whether trimmed records are removed.
    pub fn settle(&mut self)
        ensures fields { (self.new.no ≡ self.old.no) × (self.new.name ≡ self.old.name)
            × (self.new.clock ≡ self.old.clock) }
        ensures shows { (log : Journal) → Shows self.old log → Shows self.new log }
        ensures dropped { self.new ≡ settled self.old }
    {
        settle_at(&mut self.logs, self.next_to_settle, &self.cut);
        self.tree.note_expired(self.cut);
        self.next_to_settle = next_of(self.logs.len(), self.next_to_settle);
        self.clock_before = self.clock;
        self.cut_before = self.cut;
    }

    /// Sets the clock and the trim horizon back to their values before the last `advance`. If the stream was changed or
    /// `settle` was called since that `advance`, the clock and the trim horizon keep their present values.
    pub fn retreat(&mut self)
        ensures { self.new ≡ record self.old { clock = self.old.clock_before; cut = self.old.cut_before } }
    {
        self.clock = self.clock_before;
        self.cut = self.cut_before;
    }
}
