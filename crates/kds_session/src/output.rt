//! The queue of the response bytes that have yet to be sent.
ghost use Rattle.std.specs.Prelude.{◌≡◌, ◌≤◌, [], ◌++◌, drop, length, true, IfOk, OnOk, OnErr};
ghost use Rattle.kds_defs.specs.Kinds.{is_service_answer};
ghost use Rattle.kds_head.specs.Response.{IsResponse, response_text};
ghost use Rattle.kds_reply.specs.Replies.{reply_of};
ghost use Rattle.kds_session.specs.Text.{answered};

use kds_base::{Memory, Octets};
use kds_defs::Answer;
use kds_head::{RESPONSE_HEAD_BYTES, put_response_head, response};
use kds_reply::{add_reply, reply};
use std::alloc::Global;
use std::marker::Model;

/// When all bytes of an output were sent, its buffer is kept for reuse if it contains at most this many bytes, and
/// freed otherwise.
const KEPT_BYTES: usize = 1_048_576;

/// Placeholder bytes before the body of a response. The status line and the headers are later written over the end of
/// these bytes.
static GAP: [u8; RESPONSE_HEAD_BYTES] = [0; RESPONSE_HEAD_BYTES];

/// Writes the response to a command into `text`, and returns the index at which the response begins. The body is
/// appended after a gap. The status line and the headers are then written into the gap, directly before the body.
/// Preconditions: `text` is empty, and `answer` is an answer of the stream service.
fn write_response(
    alloc: Global,
    answer: &Answer,
    close: bool,
    text: &mut Vec<u8>,
) -> Result<usize, Memory>
    requires nothing { text.old.items ≡ [] }
    requires own { is_service_answer answer.now ≡ true }
    ensures begins { IfOk result (λ start. start ≤ length text.new.items) }
    ensures response { IfOk result (λ start. drop start text.new.items ≡ answered (reply_of answer.now) close) }
{
    text.extend_from_slice(&GAP)?;
    let status = add_reply(alloc, answer, text)?;
    Ok(put_response_head(status, true, close, text.as_mut_slice(), GAP.len()))
}

/// A queue of response bytes. Bytes are appended at the end, and are removed from the front after they were sent. In a
/// contract, an output is the list of its remaining bytes.
#[derive(Drop)]
pub struct Output {
    alloc: Global,
    text: Octets,
    /// The index in `text` of the first byte that remains to be sent. The bytes before this index were already sent, or
    /// are the unused bytes of a gap (see `GAP`).
    sent: usize,
}

impl Model for Output {
    ghost use Rattle.std.specs.Prelude.{ℕ, List, ◌≤◌, drop, length};

    ghost Value = { List ℕ };

    ghost view = { λ o. drop o.sent o.text };

    ghost invariant = { λ o. o.sent ≤ length o.text };
}

impl Output {
    /// Returns an empty output. This allocates no memory.
    pub fn new(alloc: Global) -> Output
        ensures { result ≡ [] }
    {
        Output {
            alloc,
            text: Octets::new(alloc),
            sent: 0,
        }
    }

    /// Returns the bytes that remain to be sent.
    pub fn as_slice(&self) -> &[u8]
        ensures { result.now ≡ self.now }
    {
        let (_, left) = self.text.as_slice().split_at(self.sent);
        left
    }

    /// Removes `count` bytes from the front. If no byte remains, the buffer is kept for reuse if it contains at most
    /// `KEPT_BYTES` bytes, and freed otherwise. Precondition: at least `count` bytes remain.
    pub fn advance(&mut self, count: usize)
        requires { count ≤ length self.old }
        ensures { self.new ≡ drop count self.old }
    {
        let left = self.as_slice().len();
        if count < left {
            let all = self.text.as_slice().len();
            self.sent = all - (left - count);
        } else {
            self.empty();
        }
    }

    /// Removes all bytes. The buffer is kept for reuse if it contains at most `KEPT_BYTES` bytes, and freed otherwise.
    fn empty(&mut self)
        ensures { self.new ≡ [] }
    {
        if self.text.as_slice().len() <= KEPT_BYTES {
            self.text.clear();
        } else {
            self.text = Octets::new(self.alloc);
        }
        self.sent = 0;
    }

    /// Appends bytes. If memory runs out, the output is unchanged.
    pub fn extend(&mut self, bytes: &[u8]) -> Result<(), Memory>
        ensures ok { OnOk result (self.new ≡ self.old ++ bytes.now) }
        ensures err { OnErr result (self.new ≡ self.old) }
    {
        self.text.extend(bytes)
    }

    /// Appends the response that contains `answer`. `close` states whether the connection closes after this response.
    /// Precondition: `answer` is an answer of the stream service, not an answer to a command on leases. If memory runs
    /// out, the output is unchanged.
    pub fn answer(&mut self, answer: &Answer, close: bool) -> Result<(), Memory>
        requires { is_service_answer answer.now ≡ true }
        ensures ok { OnOk result (self.new ≡ self.old ++ answered (reply_of answer.now) close) }
        ensures err { OnErr result (self.new ≡ self.old) }
    {
        if self.as_slice().is_empty() {
            return self.answer_in_place(answer, close);
        }
        let (status, body) = reply(self.alloc, answer)?;
        self.respond(status, body.as_slice(), close)
    }

    /// Does the same as `answer` for an empty output, but writes the body in place instead of copying it. If memory
    /// runs out, the output stays empty. If this happens while the response is being written, the buffer is also freed.
    fn answer_in_place(&mut self, answer: &Answer, close: bool) -> Result<(), Memory>
        requires nothing { self.old ≡ [] }
        requires own { is_service_answer answer.now ≡ true }
        ensures ok { OnOk result (self.new ≡ answered (reply_of answer.now) close) }
        ensures err { OnErr result (self.new ≡ []) }
    {
        let mut text = self.text.take_vec()?;
        text.clear();
        self.sent = 0;
        let begins = write_response(self.alloc, answer, close, &mut text)?;
        self.text = Octets::unshared(text);
        self.sent = begins;
        Ok(())
    }

    /// Appends a response of the stream service with this status and this JSON body. If memory runs out, the output is
    /// unchanged.
    fn respond(&mut self, status: u16, body: &[u8], close: bool) -> Result<(), Memory>
        requires { IsResponse status body.now true close }
        ensures ok { OnOk result (self.new ≡ self.old ++ response_text status body.now true close) }
        ensures err { OnErr result (self.new ≡ self.old) }
    {
        self.compact()?;
        response(self.alloc, status, body, true, close, &mut self.text)
    }

    /// Removes the sent bytes from the buffer if the buffer contains at least as many sent bytes as remaining bytes.
    /// Afterwards the buffer contains at most twice as many bytes as remain to be sent. Since `extend` doesn't call
    /// this function, the buffer may contain any number of sent bytes until the next answer is appended.
    fn compact(&mut self) -> Result<(), Memory>
        ensures { self.new ≡ self.old }
    {
        let left = self.as_slice();
        if self.sent > 0 && left.len() <= self.sent {
            self.text = Octets::of(self.alloc, left)?;
            self.sent = 0;
        }
        Ok(())
    }
}
