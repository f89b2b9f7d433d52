//! One HTTP/1.x connection as a state machine without I/O (RFC 9112). The caller feeds it the bytes that arrive, in
//! pieces. The state machine returns the commands that the requests contain, takes the answers to these commands, and
//! makes the bytes of the responses.
#![tactic(auto)]

mod front;
mod laws;
pub mod limits;
mod output;
mod progress;
mod request;
mod session;
mod state;

pub use laws::{first_part, nothing_follows, one_division, session_limits, whole_text};
pub use session::Session;
pub use state::Standing;
