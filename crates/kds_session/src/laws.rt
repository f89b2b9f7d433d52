//! Laws of sessions. A law is a theorem about definitions, stated as the contract of a function that does nothing.
ghost use Rattle.std.specs.Prelude.{◌≡◌, ◌+◌};
ghost use Rattle.kds_head.specs.declared.numbers.TheConstants.{HEAD_BYTES, BODY_BYTES};
ghost use Rattle.kds_session.specs.declared.limits.TheConstants.{REQUESTS, PIECE_BYTES, UNREAD_BYTES};
ghost use Rattle.kds_session.specs.Laws.{OneDivision, WholeText, NothingFollows, FirstPart};

/// The bytes of a connection can be split into messages in at most one way.
pub fn one_division()
    ensures { OneDivision }
{
    kds_head::one_finding();
    kds_head::decided_stays();
    kds_head::found_within_limits();
    kds_head::no_bytes_need_more();
}

/// Suppose that `Session::next` has just returned `None`. Then the commands returned so far are exactly the commands in
/// all the bytes fed to the session. The bytes written so far are exactly the responses to all these bytes, with the
/// answers that the commands got. The session's state says where the fed bytes end: between messages, inside a message,
/// after the last message, or with a refusal. So neither commands nor responses depend on the pieces in which the bytes
/// arrived.
pub fn whole_text()
    ensures { WholeText }
{}

/// Once the connection of a session closes or was refused, further bytes have no effect.
pub fn nothing_follows()
    ensures { NothingFollows }
{}

/// At every moment, the commands returned so far are the first commands in the bytes of the connection, whatever bytes
/// follow. The bytes written so far are a prefix of the whole output, whatever bytes and answers follow.
pub fn first_part()
    ensures { FirstPart }
{
    one_division();
}

/// States the limits as plain numbers. The definitions in `specs` refer to these numbers only by the names of the
/// code's constants. A session never has more unread bytes than the size of the largest message (a head and a body)
/// plus the size of one piece.
pub fn session_limits()
    ensures requests { REQUESTS ≡ 1000000 }
    ensures piece { PIECE_BYTES ≡ 65536 }
    ensures unread { UNREAD_BYTES ≡ 16859136 }
    ensures whole { UNREAD_BYTES ≡ HEAD_BYTES + BODY_BYTES + PIECE_BYTES }
{}
