//! The tasks of the command line. `clap` parses the words of the command line, and the task is read from the result of
//! this parse.
#![tactic(auto)]

mod command;
mod numbers;
mod ranges;
mod task;
mod words;

pub use numbers::{drill_task, serve_task};
pub use ranges::{MOST_MEMBERS, MOST_PORT, MOST_RECORDS, limits};
pub use task::Task;
pub use words::find_task;
