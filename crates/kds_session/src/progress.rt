//! Reads messages from a session's unread bytes until a message contains a command. The unread bytes are those that
//! were fed to the session and not yet consumed. A message without a valid command is a faulty request, and is answered
//! with an error.
ghost use Rattle.std.specs.Prelude.{◌≡◌, ◌<◌, ◌≤◌, ◌^◌, ◌++◌, ◌||◌, [], ℕ, List, drop, length, take, nat_le, true};
ghost use Rattle.std.specs.Prelude.{false, None, IfOk, IfSome, IsUtf8, OnOk};
ghost use Rattle.kds_defs.specs.declared.command.Command.{Command};
ghost use Rattle.kds_head.specs.Response.{is_refusal, response_text};
ghost use Rattle.kds_json.specs.Asked.{IsRequest};
ghost use Rattle.kds_reply.specs.Replies.{fault_reply};
ghost use Rattle.kds_session.specs.Messages.{IsWhole};
ghost use Rattle.kds_session.specs.Text.{Answers, answered};
ghost use Rattle.kds_session.specs.Standing.{StandsFor, IsQuiet};

use crate::front::{Front, read_front};
use crate::request::request;
use crate::state::{Standing, Waiting, waiting_for};
use kds_base::{Memory, Octets};
use kds_defs::Command;
use kds_head::{
    Head, decided_stays, found_within_limits, no_bytes_need_more, one_finding, response,
};
use kds_json_members::Fault;
use kds_reply::fault;
use std::alloc::Global;

/// The progress of a call of `Session::next` on the way to the next command. The session adopts the progress in one
/// step at the end, so the session is unchanged if memory runs out before that step.
#[derive(Drop)]
pub struct Progress {
    /// The number of bytes consumed so far, out of those that were unread at the start.
    pub read: usize,
    /// How many further requests are allowed on the connection.
    pub left: u32,
    /// The bytes of the responses to faulty requests, and of the response to a refused head.
    pub responses: Octets,
    pub standing: Standing,
    pub waiting: Waiting,
}

/// The result of an attempt to read one message.
#[derive(Drop)]
pub enum Step {
    /// No further message can be read now: bytes are missing, or the connection closes.
    Stop,
    /// A faulty request was answered with an error, and the connection stays open.
    Answered,
    Command(Command),
}

/// Returns `bytes` without the first `read` bytes.
fn rest_after(bytes: &[u8], read: usize) -> &[u8]
    requires { read ≤ length bytes.now }
    ensures { result.now ≡ drop read bytes.now }
{
    let (_, rest) = bytes.split_at(read);
    rest
}

/// Returns the body of the complete message at the front of the unread bytes. `head` is the head of this message.
fn body_of<'a>(unread: &'a [u8], head: &Head) -> &'a [u8]
    requires { IsWhole unread.now head.now }
    ensures { result.now ≡ take head.now.body (drop head.now.length unread.now) }
{
    let (_, rest) = unread.split_at(head.length);
    let (body, _) = rest.split_at(head.body as usize);
    body
}

/// Appends to `to` the response to a faulty request. `close` states whether the connection closes after this response.
fn put_fault(alloc: Global, problem: &Fault, close: bool, to: &mut Octets) -> Result<(), Memory>
    requires { IsUtf8 problem.now.member }
    ensures { OnOk result (to.new ≡ to.old ++ answered (fault_reply problem.now) close) }
{
    let (status, text) = fault(alloc, problem)?;
    response(alloc, status, text.as_slice(), true, close, to)
}

impl Progress {
    ghost use Rattle.std.specs.Prelude.{◌+◌, ◌-◌};
    ghost use Rattle.kds_session.specs.Next.{GivesNext, IsWaiting, IsFewer};
    ghost use Rattle.kds_session.specs.Steps.{read_state, Steps, IsFree, IsKept, IsPlainly};

    /// Returns the progress at the start, when no byte has been consumed yet. The connection is live and allows `left`
    /// further requests.
    pub fn new(alloc: Global, left: u32) -> Progress
        ensures { result ≡ record {
          read = 0;
          left = left;
          responses = [];
          standing = Standing.Live;
          waiting = Waiting.Nothing;
        } }
    {
        Progress {
            read: 0,
            left,
            responses: Octets::new(alloc),
            standing: Standing::Live,
            waiting: Waiting::Nothing,
        }
    }

    /// Whether the connection closes after the response to the message with this head. It closes if the head asks for
    /// this, or if no request is allowed after this message.
    fn closes_after(&self, head: &Head) -> bool
        ensures { result ≡ (head.now.close || nat_le self.now.left 1) }
    {
        head.close || self.left <= 1
    }

    /// Records that a message of `size` bytes was consumed. One request fewer is then allowed.
    fn consume_message(&mut self, size: usize)
        requires { self.old.read + size < 2 ^ 64 }
        ensures { self.new ≡ record self.old { read = self.old.read + size; left = self.old.left - 1 } }
    {
        self.read += size;
        self.left = self.left.saturating_sub(1);
    }

    /// Refuses the connection: appends a response with this status and without a body. The connection then closes.
    fn refuse(&mut self, alloc: Global, status: u16) -> Result<(), Memory>
        requires { is_refusal status ≡ true }
        ensures { OnOk result (self.new ≡ record self.old {
          responses = self.old.responses ++ response_text status [] false true;
          standing = Standing.Refused status;
        }) }
    {
        response(
            alloc,
            status,
            b"".as_slice(),
            false,
            true,
            &mut self.responses,
        )?;
        self.standing = Standing::Refused(status);
        Ok(())
    }

    /// Reads the complete message at the front of the unread bytes. `head` is the head of this message. Returns the
    /// command that the message contains. If the message is a faulty request, it is answered with an error instead.
    fn message(&mut self, alloc: Global, bytes: &[u8], head: &Head) -> Result<Step, Memory>
        requires within { self.old.read ≤ length bytes.now }
        requires whole { IsWhole (drop self.old.read bytes.now) head.now }
        requires free { IsFree (read_state bytes.now self.old) }
        ensures steps { IfOk result (Steps (read_state bytes.now self.old) (read_state bytes.now self.new)) }
        ensures plain { IfOk result
            (λ step. IsPlainly step (read_state bytes.now self.old) (read_state bytes.now self.new)) }
        ensures within { OnOk result (self.new.read ≤ length bytes.now) }
    {
        one_finding();
        decided_stays();
        found_within_limits();
        no_bytes_need_more();
        let close = self.closes_after(head);
        match request(alloc, head, body_of(rest_after(bytes, self.read), head))? {
            Ok(what) => {
                self.consume_message(head.length + head.body as usize);
                self.waiting = waiting_for(close);
                Ok(Step::Command(what))
            }
            Err(problem) => {
                put_fault(alloc, &problem, close, &mut self.responses)?;
                self.consume_message(head.length + head.body as usize);
                if close {
                    self.standing = Standing::Closed;
                    Ok(Step::Stop)
                } else {
                    Ok(Step::Answered)
                }
            }
        }
    }

    /// Reads the message at the front of the unread bytes if the message is complete. If its head is refused, refuses
    /// the connection instead. `kept` is the message's head if an earlier call found it. If only the head is complete,
    /// the head is stored in `kept`.
    fn read_message(
        &mut self,
        alloc: Global,
        bytes: &[u8],
        kept: &mut Option<Head>,
    ) -> Result<Step, Memory>
        requires within { self.old.read ≤ length bytes.now }
        requires free { IsFree (read_state bytes.now self.old) }
        requires kept { IsKept (drop self.old.read bytes.now) kept.old }
        ensures steps { IfOk result (Steps (read_state bytes.now self.old) (read_state bytes.now self.new)) }
        ensures plain { IfOk result
            (λ step. IsPlainly step (read_state bytes.now self.old) (read_state bytes.now self.new)) }
        ensures within { OnOk result (self.new.read ≤ length bytes.now) }
        ensures kept { OnOk result (IsKept (drop self.new.read bytes.now) kept.new) }
    {
        decided_stays();
        match read_front(alloc, rest_after(bytes, self.read), kept.take())? {
            Front::Unfinished => Ok(Step::Stop),
            Front::Begun(head) => {
                *kept = Some(head);
                Ok(Step::Stop)
            }
            Front::Refused(status) => {
                self.refuse(alloc, status)?;
                Ok(Step::Stop)
            }
            Front::Whole(head) => self.message(alloc, bytes, &head),
        }
    }

    /// Reads messages until one contains a command, and returns this command. The faulty requests before it are
    /// answered. Returns `None` if no further message can be read. If the next message then has a complete head but an
    /// incomplete body, this head is stored in `kept`.
    pub fn to_command(
        &mut self,
        alloc: Global,
        bytes: &[u8],
        kept: &mut Option<Head>,
    ) -> Result<Option<Command>, Memory>
        requires within { self.old.read ≤ length bytes.now }
        requires free { IsFree (read_state bytes.now self.old) }
        requires kept { IsKept (drop self.old.read bytes.now) kept.old }
        ensures given { IfOk result (GivesNext (read_state bytes.now self.old) (read_state bytes.now self.new)) }
        ensures waits { IfOk result (IsWaiting self.new.waiting) }
        ensures out { IfOk result (λ o. o ≡ None → IsQuiet (read_state bytes.now self.new)) }
        ensures fewer { IfOk result (λ o. IsFewer o (read_state bytes.now self.old) (read_state bytes.now self.new)) }
        ensures lawful { IfOk result (λ o. IfSome o IsRequest) }
        ensures within { OnOk result (self.new.read ≤ length bytes.now) }
        ensures kept { OnOk result (IsKept (drop self.new.read bytes.now) kept.new) }
    {
        loop {
            match self.read_message(alloc, bytes, kept)? {
                Step::Stop => return Ok(None),
                Step::Answered => {}
                Step::Command(what) => return Ok(Some(what)),
            }
        }
    }
}
