//! A drill is a self-test whose input is generated from a number. This crate computes the summary of a drill from a
//! machine, which contains the streams and the lease table as this input has left them.
#![tactic(auto)]

mod asking;
mod counting;
mod report;
mod rows;
mod summing;
mod text;

pub use report::summary;
pub use rows::row_among;
