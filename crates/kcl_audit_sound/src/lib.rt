//! A turn is a command with its sender and its time. A turn is lawful if the arguments of its command are within the
//! ranges of the API. A history is a list of lawful turns. The journal of a history is the event log of its turns, and
//! an audit verifies journals. This crate proves that the journal of every history, written as text, is sound: an audit
//! accepts it.
#![tactic(auto)]

mod laws;
mod typed;

pub use laws::sound_histories;
pub use typed::{all_fit_types, fits_types};
