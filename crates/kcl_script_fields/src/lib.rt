//! The text of commands on leases and of the answers to them, and the fields in the lines of schedules (recorded
//! workloads) and journals (event logs).
#![tactic(auto)]

mod answer;
mod command;
mod fields;
mod laws;
mod origins;
mod raw;
mod words;

pub use answer::{fill_answer, print_answer, refusal_name};
pub use command::{origin_field, owner_field, print_command, target_field};
pub use fields::{count, field, key_of, worker};
pub use laws::one_command_text;
pub use origins::origin;
pub use raw::{raw_command, row, target};
pub use words::{number_field, with_key, with_number, with_numbers};
