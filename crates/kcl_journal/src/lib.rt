//! A journal is the event log of a schedule, which is a recorded workload. This crate reads the lines of a journal in
//! versions 1 and 2 of the journal's text, and prints lines in version 2. Each entry of the journal says what a command
//! changed.
#![tactic(auto)]

mod laws;
mod leases;
mod line;
mod numbers;
mod print;
mod read;
mod streams;

pub use laws::{journal_limits, one_entry};
pub use line::{
    EntryLine, FIRST_RECORD_BYTES, FIRST_VERSION, HEADING, HEADING_LINE, KEY_BYTES, VERSION,
};
pub use print::{print_end, print_entry, print_heading};
pub use read::{read_end, read_entry};
