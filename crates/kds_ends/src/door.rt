//! Listeners for incoming connections.
ghost use Rattle.std.specs.Prelude.{ℕ, OnOk};
ghost use Rattle.kds_ends.specs.Causes.{HasCause};

use crate::sink::Sink;
use crate::source::{Failed, Source};

/// A listener for incoming connections. Each accepted connection has an input and an output.
pub trait Door {
    type Input: Source + Drop;

    type Output: Sink + Drop;

    /// How many calls of the listener have failed. Each failure raises the number by one, up to the greatest `u64`.
    ghost faults: { Self → ℕ };

    /// Whether the listener listens at this port.
    ghost listens: { Self → ℕ → Type 0 };

    /// Starts to listen at `port`, so that connections to this port can be accepted.
    fn listen(&mut self, port: u16) -> Result<(), Failed>
        ensures cause { HasCause (faults self.old) (faults self.new) result }
        ensures listens { OnOk result (listens self.new port) };

    /// Accepts the next connection, and returns its input and its output. The listener continues to listen at its port.
    fn accept(&mut self) -> Result<(Self::Input, Self::Output), Failed>
        ensures cause { HasCause (faults self.old) (faults self.new) result }
        ensures listens { (port : ℕ) → listens self.old port → listens self.new port };
}
