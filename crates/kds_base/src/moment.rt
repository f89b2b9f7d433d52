//! Points in time, in milliseconds.
ghost use Rattle.std.specs.Prelude.{◌≡◌, ◌<◌, ◌^◌, max, SomeIff};
ghost use Rattle.kds_base.specs.Moments.{moment_of};

use crate::number_text::read_u64;
use std::marker::Model;

/// The least number of milliseconds that is too great for a moment: 2^62.
pub const MOMENT_END: u64 = 1 << 62;

/// A point in time: a number of milliseconds since moment 0, which is the start of the time scale. The number is below
/// `MOMENT_END`. In contracts, a moment is this number.
#[derive(Clone, Copy, Debug, PartialEq, Eq, PartialOrd, Ord)]
pub struct Moment {
    ms: u64,
}

impl Model for Moment {
    ghost use Rattle.std.specs.Prelude.{ℕ, ◌<◌, ◌^◌};

    ghost Value = { ℕ };

    ghost view = { λ m. m.ms };

    ghost invariant = { λ m. m.ms < 2 ^ 62 };

    ghost inverse = { λ n. record { ms = n } };
}

impl Moment {
    /// Returns the moment that is `ms` milliseconds after moment 0, or `None` if `ms` is `MOMENT_END` or more.
    pub fn new(ms: u64) -> Option<Moment>
        ensures { SomeIff result (ms < 2 ^ 62) ms }
    {
        if ms < MOMENT_END {
            Some(Moment { ms })
        } else {
            None
        }
    }

    /// Reads a moment: a number of milliseconds below `MOMENT_END`, in decimal, without needless leading zeros. Returns
    /// `None` for every other text.
    pub fn read(text: &[u8]) -> Option<Moment>
        ensures { result ≡ moment_of text.now }
    {
        match read_u64(text) {
            Some(ms) => Moment::new(ms),
            None => None,
        }
    }

    /// Returns moment 0, the initial value of a clock.
    pub fn start() -> Moment
        ensures { result ≡ 0 }
    {
        Moment { ms: 0 }
    }

    /// Returns the later of the two moments.
    pub fn later(self, other: Moment) -> Moment
        ensures { result ≡ max self other }
    {
        if self.ms < other.ms { other } else { self }
    }

    /// Returns the moment's number of milliseconds, which is below `MOMENT_END`.
    pub fn ms(self) -> u64
        ensures value { result ≡ self }
        ensures range { self < 2 ^ 62 }
    {
        self.ms
    }
}
