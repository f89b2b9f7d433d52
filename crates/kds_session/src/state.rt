//! The state of a connection.
ghost use Rattle.std.specs.Prelude.{◌≡◌};
ghost use Rattle.kds_session.specs.States as spec;

/// The state of a connection.
#[derive(Clone, Copy, Debug, PartialEq, Eq)]
pub enum Standing {
    /// Further requests may arrive.
    Live,
    /// The last response was added to the output, and the connection closes after it (RFC 9112, section 9.6).
    Closed,
    /// The connection was refused with this HTTP status, one of those that `kds_head::Found` lists.
    Refused(u16),
}

/// Whether a command waits for its answer.
#[derive(Clone, Copy, Debug, PartialEq, Eq)]
pub enum Waiting {
    Nothing,
    Answer,
    /// A command waits for its answer, and the connection closes after this answer.
    LastAnswer,
}

/// Returns the state in which a command waits for its answer. `close` states whether the connection closes after this
/// answer.
pub fn waiting_for(close: bool) -> Waiting
    ensures { result ≡ spec.waiting_for close }
{
    if close {
        Waiting::LastAnswer
    } else {
        Waiting::Answer
    }
}

/// Whether a command waits for its answer and the connection closes after this answer.
pub fn is_last(waiting: Waiting) -> bool
    ensures { result ≡ spec.is_last waiting }
{
    match waiting {
        Waiting::LastAnswer => true,
        _ => false,
    }
}

/// Returns the state of the connection after a response. `standing` is the state before this response, and `close`
/// states whether the connection closes after this response.
pub fn standing_after(close: bool, standing: Standing) -> Standing
    ensures { result ≡ spec.standing_after close standing }
{
    if close { Standing::Closed } else { standing }
}
