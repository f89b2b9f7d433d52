//! The size of a read, and the size at which output is written.
ghost use Rattle.std.specs.Prelude.{◌≡◌};

/// The greatest number of bytes that one read of the input returns.
pub const PIECE_BYTES: usize = 65_536;

/// The waiting output is written as soon as it has this number of bytes or more. So after each line, fewer than
/// `OUTPUT_BYTES` bytes of output wait to be written.
pub const OUTPUT_BYTES: usize = 65_536;

/// A law, which is a theorem stated as the contract of an empty function. It states the values of both constants,
/// because the other contracts of this crate use only the names of the constants. If a value is changed, this law is no
/// longer true.
pub fn line_sizes()
    ensures piece { PIECE_BYTES ≡ 65536 }
    ensures output { OUTPUT_BYTES ≡ 65536 }
{}
