//! Clocks.
ghost use Rattle.std.specs.Prelude.{◌≡◌, ◌∷◌, [], ◌<◌, List, ℕ, None, Some, length, unwrap_or};
ghost use Rattle.std.specs.declared.option.Option.{Option};
ghost use Rattle.kds_ends.specs.Moments.{Gives, current, later};

use kds_base::{Items, Moment};
use std::marker::Model;
use std::rt::Clock as Timer;
use std::time::{SystemTime, UNIX_EPOCH};

/// A clock, which returns the present time as a `Moment`, a number of milliseconds.
pub trait Clock {
    /// The moments that the next calls of `now` will return, in order, or `None` if the clock's contract doesn't state
    /// them. Once only the last moment is left, `now` returns it again and again.
    ghost moments: { Self → Option (List ℕ) };

    /// Returns the clock's present time.
    fn now(&mut self) -> Moment
        ensures { Gives (moments self.old) (result ∷ []) (moments self.new) };
}

/// A clock that returns the moments of a given list one after another, and then the last moment again and again. In
/// contracts, its value is the list of the remaining moments.
#[derive(Drop)]
pub struct MemClock {
    moments: Items<Moment>,
    next: usize,
}

impl Model for MemClock {
    ghost use Rattle.std.specs.Prelude.{List, ℕ, drop, length, ◌<◌};

    ghost Value = { List ℕ };

    ghost view = { λ c. drop c.next c.moments };

    ghost invariant = { λ c. c.next < length c.moments };
}

impl MemClock {
    /// Returns a clock that returns `moments` one after another. Precondition: `moments` isn't empty.
    pub fn new(moments: Items<Moment>) -> MemClock
        requires { 0 < length moments }
        ensures { result ≡ moments }
    {
        MemClock { moments, next: 0 }
    }
}

impl Clock for MemClock {
    ghost moments = { λ c. Some c };

    fn now(&mut self) -> Moment
        ensures moment { result ≡ current self.old }
        ensures value { self.new ≡ later self.old }
        ensures gives { Gives (Some self.old) (result ∷ []) (Some self.new) }
    {
        let moments = self.moments.as_slice();
        let moment = moments[self.next];
        if self.next + 1 < moments.len() {
            self.next += 1;
        }
        moment
    }
}

/// The operating system's clock, in milliseconds since 1970. The contract of this clock states none of the moments that
/// the clock returns. If the time can't be read, is before 1970, or is too great for a `Moment`, `now` returns the same
/// moment as in the previous call, or moment 0 if this is the first call.
#[derive(Drop)]
pub struct SystemClock<R> {
    rt: R,
    last: Moment,
}

/// Returns the operating system's time, or `None` if the time can't be read, is before 1970, or is too great for a
/// `Moment`.
fn read_clock<R: Timer>(rt: &R) -> Option<Moment> {
    let now = SystemTime::now(rt).ok()?;
    let since = now.duration_since(UNIX_EPOCH).ok()?;
    Moment::new(u64::try_from(since.as_millis()).ok()?)
}

/// Returns `read`, the time that was read from the operating system. If no time was read (`None`), returns `last`, the
/// moment that the clock returned last.
fn moment_after(last: Moment, read: Option<Moment>) -> Moment
    ensures { result ≡ unwrap_or read last }
{
    read.unwrap_or(last)
}

impl<R: Timer> SystemClock<R> {
    /// Returns a clock that reads the operating system's time. Until the time can be read, `now` returns moment 0.
    pub fn new(rt: R) -> SystemClock<R>
        ensures { result.last ≡ 0 }
    {
        SystemClock {
            rt,
            last: Moment::start(),
        }
    }
}

impl<R: Timer> Clock for SystemClock<R> {
    ghost moments = { λ _. None };

    fn now(&mut self) -> Moment
        ensures last { result ≡ self.new.last }
        ensures gives { Gives None (result ∷ []) None }
    {
        self.last = moment_after(self.last, read_clock(&self.rt));
        self.last
    }
}
