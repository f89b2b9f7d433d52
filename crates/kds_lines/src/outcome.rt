//! The ways in which the reading of an input can end.

/// The way in which the reading of an input ended. Lines are numbered from 1. The taker is the consumer of the lines.
#[derive(Clone, Copy, Debug, PartialEq, Eq)]
pub enum Outcome {
    /// The input ended with a line feed or was empty, and the taker took all lines.
    Whole,
    /// The input ended inside the line with this number, before the line feed of that line. The taker took all lines
    /// before it.
    Unfinished(u64),
    /// The taker stopped the reading at the line with this number, and didn't take this line.
    Stopped(u64),
    /// A line is longer than `LINE_BYTES` bytes, or the input is longer than `INPUT_BYTES` bytes.
    TooLong,
    /// The source of the input failed.
    Read,
    /// The sink of the output failed.
    Write,
    /// Memory ran out.
    Memory,
}
