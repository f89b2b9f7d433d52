//! A drill is a self-test whose large, valid input is generated from a number. This crate generates the commands of a
//! drill, and proves that the text of a drill's summary depends only on this number and on the number of records.
#![tactic(auto)]

mod generator;
mod laws;
mod limits;
mod opens;
mod plan;
mod records;
mod state;

pub use generator::{Generator, generate};
pub use laws::{apart, one_order, one_text, untrimmed};
pub use limits::{MEMBER_TURNS, MOST_RECORDS, MOST_WORKERS, RECORDS_A_TURN, TICK, drill_limits};
pub use records::stream_name;
