//! The faults in a request. A faulty request is refused before it becomes a command.
ghost use Rattle.std.specs.Prelude.{◌≡◌};
ghost use Rattle.kds_json_members.specs.declared.problem.Stop.TheVariants.{Memory as OutOfMemory};

use kds_base::{Memory, Octets};
use std::alloc::AllocError;

/// The kind of a fault in a request (Kinesis API Reference, Common Errors).
#[derive(Clone, Copy, Debug, PartialEq, Eq)]
pub enum FaultKind {
    /// The request names an operation that the service doesn't have.
    Unknown,
    /// The body isn't a JSON object in UTF-8.
    Serialization,
    /// A required member is absent or null.
    Missing,
    /// The value of a member has the wrong type, range or form, or a forbidden member is present.
    Invalid,
    /// The string in a ShardIterator or NextToken member isn't a valid token of this service.
    Token,
}

/// The first fault that is found in a request. `member` is the name of the member with this fault, in UTF-8. The name
/// is empty if the kind of the fault is `Unknown` or `Serialization`.
#[derive(Drop)]
pub struct Fault {
    pub kind: FaultKind,
    pub member: Octets,
}

/// Why no command can be read from a request: memory ran out, or the request has a fault.
#[derive(Drop)]
pub enum Stop {
    Memory,
    Fault(Fault),
}

impl From<Memory> for Stop {
    ghost from_gives = { λ _ e. e ≡ OutOfMemory };

    fn from(_: Memory) -> Stop {
        Stop::Memory
    }
}

impl From<AllocError> for Stop {
    ghost from_gives = { λ _ e. e ≡ OutOfMemory };

    fn from(_: AllocError) -> Stop {
        Stop::Memory
    }
}
