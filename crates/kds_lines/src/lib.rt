//! Reads an input line by line, hands each line to a consumer (`Taker`), and writes the output of the consumer to a
//! sink (an output stream). The length of a line and the length of the whole input are limited.
#![tactic(auto)]

mod feed;
mod line_buffer;
mod outcome;
mod read;
mod sizes;
mod taker;

pub use outcome::Outcome;
pub use read::read_lines;
pub use sizes::line_sizes;
pub use taker::Taker;
