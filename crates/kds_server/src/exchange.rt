//! Moves bytes from a connection's source (its input stream) into its session, and from the session to the connection's
//! sink (its output stream). A piece is the bytes of one read.
ghost use Rattle.std.specs.Prelude.{◌≡◌, ◌≢◌, ◌≤◌, ◌<◌, ◌⊎◌, [], ◌++◌, List, ℕ, length, true, false, None, Some, IfOk};
ghost use Rattle.std.specs.Prelude.{IfErr, IfSome, OnOk, IsErrOf};
ghost use Rattle.std.specs.declared.option.Option.{Option};
ghost use Rattle.std.specs.Io.KnownBytes.{Appends};
ghost use Rattle.kds_defs.specs.declared.command.Command.{Command};
ghost use Rattle.kds_ends.specs.Causes.{Rose, AppendsFront};
ghost use Rattle.kds_session.specs.Text.{Answers};
ghost use Rattle.kds_session.specs.States.{SessionState};
ghost use Rattle.kds_session.specs.Standing.{CarriesOn, sent_more, IsQuiet, to_come, end_of};
ghost use Rattle.kds_session.specs.Next.{feed_limit_of};
ghost use Rattle.kds_session.specs.declared.state.Standing.TheVariants.{Live};
ghost use Rattle.kds_session.specs.declared.state.Waiting.TheVariants.{Nothing};
ghost use Rattle.kds_server.specs.Texts.{Tells, IsAnswerStatus, status_at};
ghost use Rattle.kds_server.specs.Steps.{ReadsOn, ReadsPiece, EndsThere};

use kds_ends::{Sink, Source, Status, write_all};
use kds_session::limits::{PIECE_BYTES, UNREAD_BYTES};
use kds_session::{Session, Standing};

/// The number of bytes of the buffer that each connection has. Most requests fit. A request that is longer is read on
/// with a buffer of `PIECE_BYTES` bytes, whose pages a connection with short requests never touches.
pub const SMALL_PIECE_BYTES: usize = 16_384;

/// Writes the session's whole output to the sink. If the sink fails, a prefix of the output may have been written.
fn flush<K: Sink>(session: &mut Session, out: &mut K) -> Result<(), Status>
    ensures written { OnOk result (Appends (K.held out.old) (K.held out.new) session.old.output) }
    ensures stands { OnOk result (CarriesOn session.old session.new (sent_more session.old.output)) }
    ensures same { OnOk result (session.new ≡ record session.old { output = [] }) }
    ensures err { IfErr result (λ s. (s ≡ Status.Write)
        × AppendsFront (K.held out.old) (K.held out.new) session.old.output) }
    ensures later { K.faults out.old ≤ K.faults out.new }
    ensures write { IsErrOf result Status.Write → Rose (K.faults out.old) (K.faults out.new) }
{
    match write_all(out, session.output()) {
        Ok(()) => {
            let count = session.output().len();
            session.sent(count);
            Ok(())
        }
        Err(_) => Err(Status::Write),
    }
}

/// Writes the session's output if it has at least `PIECE_BYTES` bytes. Afterwards fewer than `PIECE_BYTES` bytes remain
/// to be sent.
pub fn write_early<K: Sink>(session: &mut Session, out: &mut K) -> Result<(), Status>
    ensures goes_on { OnOk result ((left : Option (List ℕ))
        → ReadsOn left session.old (K.held out.old) left session.new (K.held out.new)) }
    ensures ended { IfErr result (λ s. (left : Option (List ℕ))
        → EndsThere left session.old (K.held out.old) left (K.held out.new) s) }
    ensures same { OnOk result (session.new.waiting ≡ session.old.waiting) }
    ensures as_much { OnOk result (to_come session.new ≡ to_come session.old) }
    ensures bounded { OnOk result (length session.new.output < PIECE_BYTES) }
    ensures later { K.faults out.old ≤ K.faults out.new }
    ensures write { IsErrOf result Status.Write → Rose (K.faults out.old) (K.faults out.new) }
    ensures kinds { IfErr result (λ s. s ≡ Status.Write) }
{
    kds_session::first_part();
    if session.output().len() < PIECE_BYTES {
        return Ok(());
    }
    match flush(session, out) {
        Ok(()) => Ok(()),
        Err(status) => Err(status),
    }
}

/// Reads a piece into the buffer, and feeds it to the session. Returns `false` at the end of the input. Preconditions:
/// the buffer has at most `PIECE_BYTES` bytes, which may be fed to the session, and the session's output is empty. The
/// output must be written first, since a client may wait for its response before it sends more.
fn read_piece<S: Source>(
    session: &mut Session,
    input: &mut S,
    buffer: &mut [u8],
) -> Result<bool, Status>
    requires some { 0 < length buffer.old }
    requires few { length buffer.old ≤ PIECE_BYTES }
    requires feed_limit { PIECE_BYTES ≤ feed_limit_of session.old }
    requires written { session.old.output ≡ [] }
    ensures { ReadsPiece (S.left input.old) (S.left input.new) session.old session.new (S.faults input.old)
        (S.faults input.new) result }
{
    match input.read(buffer) {
        Ok(0) => Ok(false),
        Ok(count) => {
            let (piece, _) = buffer.split_at(count);
            match session.feed(piece) {
                Ok(()) => Ok(true),
                Err(_) => Err(Status::Memory),
            }
        }
        Err(_) => Err(Status::Read),
    }
}

/// As `read_piece`, with a buffer of `PIECE_BYTES` bytes. Not inlined, since the buffer makes the frame large, and
/// every page of a frame is touched, also by a connection whose requests are short.
#[inline(never)]
fn read_large_piece<S: Source>(session: &mut Session, input: &mut S) -> Result<bool, Status>
    requires feed_limit { PIECE_BYTES ≤ feed_limit_of session.old }
    requires written { session.old.output ≡ [] }
    ensures { ReadsPiece (S.left input.old) (S.left input.new) session.old session.new (S.faults input.old)
        (S.faults input.new) result }
{
    let mut buffer = [0u8; PIECE_BYTES];
    read_piece(session, input, &mut buffer)
}

/// As `read_piece`, with the small buffer for the beginning of a request, and with a large one for the rest of a
/// request that is longer than the small buffer.
fn read_next<S: Source>(
    session: &mut Session,
    input: &mut S,
    buffer: &mut [u8; SMALL_PIECE_BYTES],
) -> Result<bool, Status>
    requires feed_limit { PIECE_BYTES ≤ feed_limit_of session.old }
    requires written { session.old.output ≡ [] }
    ensures { ReadsPiece (S.left input.old) (S.left input.new) session.old session.new (S.faults input.old)
        (S.faults input.new) result }
{
    if session.feed_limit() > UNREAD_BYTES - SMALL_PIECE_BYTES {
        read_piece(session, input, buffer)
    } else {
        read_large_piece(session, input)
    }
}

/// Returns the status of a connection that ends here, without reading further bytes. Precondition: no command waits for
/// its answer.
fn ending(session: &Session) -> Status
    requires { session.now.waiting ≡ Nothing }
    ensures { result ≡ status_at (end_of session.now) }
{
    match session.standing() {
        Standing::Live => {
            if session.at_boundary() {
                Status::Done
            } else {
                Status::Cut
            }
        }
        Standing::Closed => Status::Done,
        Standing::Refused(_) => Status::Refused,
    }
}

/// Writes the session's output. If the connection then stays open, reads a piece and feeds it to the session. Returns
/// the status of the connection if it has ended. Preconditions: no command waits for its answer. Also, if the session
/// is live, no whole message is unread and `PIECE_BYTES` bytes may be fed.
pub fn exchange<S: Source, K: Sink>(
    session: &mut Session,
    input: &mut S,
    out: &mut K,
    buffer: &mut [u8; SMALL_PIECE_BYTES],
) -> Option<Status>
    requires quiet { IsQuiet session.old }
    requires feed_limit { session.old.standing ≡ Live → PIECE_BYTES ≤ feed_limit_of session.old }
    ensures goes_on { result ≡ None
        → ReadsOn (S.left input.old) session.old (K.held out.old) (S.left input.new) session.new (K.held out.new) }
    ensures ended { IfSome result
        (EndsThere (S.left input.old) session.old (K.held out.old) (S.left input.new) (K.held out.new)) }
    ensures free { result ≡ None → session.new.waiting ≡ Nothing }
    ensures empty { result ≡ None → session.new.output ≡ [] }
    ensures grows { result ≡ None → (session.old.standing ≡ Live) × (to_come session.new ≡ to_come session.old)
        × (length session.old.unread < length session.new.unread) }
    ensures source_later { S.faults input.old ≤ S.faults input.new }
    ensures sink_later { K.faults out.old ≤ K.faults out.new }
    ensures read { result ≡ Some Status.Read → Rose (S.faults input.old) (S.faults input.new) }
    ensures write { result ≡ Some Status.Write → Rose (K.faults out.old) (K.faults out.new) }
    ensures kinds { IfSome result IsAnswerStatus }
{
    kds_session::first_part();
    kds_session::whole_text();
    kds_session::nothing_follows();
    match flush(session, out) {
        Ok(()) => {}
        Err(status) => return Some(status),
    }
    match session.standing() {
        Standing::Live => match read_next(session, input, buffer) {
            Ok(true) => None,
            Ok(false) => Some(ending(session)),
            Err(status) => Some(status),
        },
        _ => Some(ending(session)),
    }
}
