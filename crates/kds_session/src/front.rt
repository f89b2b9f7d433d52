//! Finds out what a session's unread bytes begin with: an incomplete, a complete or a refused message. Bytes are unread
//! if they were fed to the session and not yet consumed.
ghost use Rattle.std.specs.Prelude.{◌≡◌, nat_le, IfOk};
ghost use Rattle.kds_head.specs.Find.{IsFound};
ghost use Rattle.kds_session.specs.Messages.{size};
ghost use Rattle.kds_session.specs.Steps.{IsFront, IsKept, IsKnown};

use kds_base::Memory;
use kds_head::{Found, Head, head};
use std::alloc::Global;

/// What the unread bytes begin with.
#[derive(Drop)]
pub enum Front {
    /// An incomplete head, or no bytes.
    Unfinished,
    /// A complete head, but not yet the complete body.
    Begun(Head),
    /// A head that is refused with this HTTP status (see `kds_head::Found`).
    Refused(u16),
    /// A complete message with this head.
    Whole(Head),
}

/// Whether the message with this head, its body included, has at most `bytes` bytes (RFC 9112, section 6.3).
fn is_whole(bytes: usize, head: &Head) -> bool
    ensures { result ≡ nat_le (size head.now) bytes }
{
    match bytes.checked_sub(head.length) {
        Some(after) => after as u64 >= head.body,
        None => false,
    }
}

/// Finds the head at the front of the unread bytes. `kept` is this head if an earlier search has found it. In this
/// case, the bytes aren't searched again.
fn find_head(alloc: Global, unread: &[u8], kept: Option<Head>) -> Result<Found, Memory>
    requires { IsKept unread.now kept }
    ensures { IfOk result (IsFound unread.now) }
{
    kds_head::no_bytes_need_more();
    match kept {
        Some(kept) => Ok(Found::Whole(kept)),
        None => match unread {
            [] => Ok(Found::Need),
            _ => head(alloc, unread),
        },
    }
}

/// Returns what the unread bytes begin with. `kept` is the head at their front if an earlier search has found it.
pub fn read_front(alloc: Global, unread: &[u8], kept: Option<Head>) -> Result<Front, Memory>
    requires { IsKept unread.now kept }
    ensures front { IfOk result (IsFront unread.now) }
    ensures status { IfOk result IsKnown }
{
    kds_head::found_within_limits();
    match find_head(alloc, unread, kept)? {
        Found::Need => Ok(Front::Unfinished),
        Found::Refused(status) => Ok(Front::Refused(status)),
        Found::Whole(head) => {
            if is_whole(unread.len(), &head) {
                Ok(Front::Whole(head))
            } else {
                Ok(Front::Begun(head))
            }
        }
    }
}
