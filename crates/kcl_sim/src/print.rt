//! Adds lines to the output of a run. A short line is first built in a buffer that is reused. Each line of output is
//! added whole or not at all. A turn is a command with its sender and its time. A survey is the lease command that
//! lists the shards and the rows of the lease table.
ghost use Rattle.std.specs.Prelude.{◌≡◌, [], ◌∷◌, ◌++◌, codes, decimal, take, vec_len, true, false, IsUtf8, OnOk};
ghost use Rattle.kds_defs.specs.Kinds.{is_lease_answer, is_service_answer};
ghost use Rattle.kds_reply.specs.Replies.{fault_reply, reply_of};
ghost use Rattle.kcl_script_fields.specs.Answers.{answer_text};
ghost use Rattle.kcl_sim.specs.Output.{AddsWhole, body_part, left_text, printed};

use kcl_hand::Left;
use kcl_script_fields::fill_answer;
use kds_base::{Memory, Octets, write_u64};
use kds_defs::Answer;
use kds_json_members::Fault;
use kds_reply::{add_reply, fault};
use std::alloc::Global;

/// Adds a status in decimal, and a space if the body isn't empty. If memory runs out, a prefix of this text may have
/// been added.
fn fill_head(alloc: Global, status: u16, body: &[u8], line: &mut Octets) -> Result<(), Memory>
    ensures { OnOk result (line.new ++ body.now ≡ line.old ++ (decimal status ++ body_part body.now)) }
{
    write_u64(alloc, status as u64, line)?;
    if body.is_empty() {
        return Ok(());
    }
    line.extend(b" ".as_slice())
}

/// Returns the status of the reply to a request (`reply_of`).
fn status_of(answer: &Answer) -> u16
    ensures { result ≡ (reply_of answer.now).0 }
{
    match answer {
        Ok(_) => 200,
        Err(_) => 400,
    }
}

/// Adds a space and the body of the reply to a request, or nothing if the body is empty. If memory runs out, a prefix
/// of this text may have been added.
fn add_body(alloc: Global, answer: &Answer, text: &mut Vec<u8>) -> Result<(), Memory>
    requires { is_service_answer answer.now ≡ true }
    ensures front { take (vec_len text.old) text.new.items ≡ text.old.items }
    ensures ok { OnOk result (text.new.items ≡ text.old.items ++ body_part (reply_of answer.now).1) }
{
    let status_end = text.len();
    text.push(b' ')?;
    let body_start = text.len();
    add_reply(alloc, answer, text)?;
    if text.len() == body_start {
        text.truncate(status_end);
    }
    Ok(())
}

/// Adds a line: `head`, a space and the body of the reply to a request, and a line feed. If memory runs out, a prefix
/// of the line may have been added.
fn add_line(alloc: Global, head: &[u8], answer: &Answer, text: &mut Vec<u8>) -> Result<(), Memory>
    requires { is_service_answer answer.now ≡ true }
    ensures front { take (vec_len text.old) text.new.items ≡ text.old.items }
    ensures ok { OnOk result
        (text.new.items ≡ text.old.items ++ ((head.now ++ body_part (reply_of answer.now).1) ++ 10 ∷ [])) }
{
    text.extend_from_slice(head)?;
    add_body(alloc, answer, text)?;
    text.push(b'\n')?;
    Ok(())
}

/// Adds a line with the status and the body of the reply to a request. The body may be long, so it is written directly
/// to the output. The buffer `line` holds only the status. If memory runs out, nothing is added.
pub fn print_reply(
    alloc: Global,
    answer: &Answer,
    line: &mut Octets,
    to: &mut Octets,
) -> Result<(), Memory>
    requires { is_service_answer answer.now ≡ true }
    ensures { AddsWhole result to.old to.new (printed (reply_of answer.now)) }
{
    line.clear();
    write_u64(alloc, status_of(answer) as u64, line)?;
    let mut text = to.take_vec()?;
    let before = text.len();
    let added = add_line(alloc, line.as_slice(), answer, &mut text);
    if added.is_err() {
        text.truncate(before);
    }
    *to = Octets::unshared(text);
    added
}

/// Adds the line of output for a faulty request: the status and the body of the error. A faulty request makes no turn.
/// If memory runs out, nothing is added.
pub fn print_fault(
    alloc: Global,
    problem: &Fault,
    line: &mut Octets,
    to: &mut Octets,
) -> Result<(), Memory>
    requires { IsUtf8 problem.now.member }
    ensures { AddsWhole result to.old to.new (printed (fault_reply problem.now)) }
{
    let (status, body) = fault(alloc, problem)?;
    line.clear();
    fill_head(alloc, status, body.as_slice(), line)?;
    line.extend(body.as_slice())?;
    line.extend(b"\n".as_slice())?;
    to.extend(line.as_slice())
}

/// Adds a line with the text of the answer to a lease command. `long` matters only for a survey: if `long` is true, the
/// text has each row of the lease table, and otherwise only the numbers of shards and rows. If memory runs out, nothing
/// is added.
pub fn print_raw(
    alloc: Global,
    answer: &Answer,
    long: bool,
    line: &mut Octets,
    to: &mut Octets,
) -> Result<(), Memory>
    requires { is_lease_answer answer.now ≡ true }
    ensures { AddsWhole result to.old to.new (answer_text long answer.now ++ 10 ∷ []) }
{
    line.clear();
    fill_answer(alloc, answer, long, line)?;
    line.extend(b"\n".as_slice())?;
    to.extend(line.as_slice())
}

/// Adds a line that consists only of `word`. If memory runs out, nothing is added.
pub fn print_word(word: &[u8], line: &mut Octets, to: &mut Octets) -> Result<(), Memory>
    ensures { AddsWhole result to.old to.new (word.now ++ 10 ∷ []) }
{
    line.clear();
    line.extend(word)?;
    line.extend(b"\n".as_slice())?;
    to.extend(line.as_slice())
}

/// Adds the line `worker BY`, where BY is the number of a worker's actor. If memory runs out, nothing is added.
pub fn print_worker(
    alloc: Global,
    by: u64,
    line: &mut Octets,
    to: &mut Octets,
) -> Result<(), Memory>
    ensures { AddsWhole result to.old to.new (codes "worker " ++ (decimal by ++ 10 ∷ [])) }
{
    line.clear();
    line.extend(b"worker ".as_slice())?;
    write_u64(alloc, by, line)?;
    line.extend(b"\n".as_slice())?;
    to.extend(line.as_slice())
}

/// Ends a line that already contains the command of a worker: adds ` = `, the answer to this command, and a line feed.
pub fn print_answered(alloc: Global, answer: &Answer, line: &mut Octets) -> Result<(), Memory>
    requires { is_lease_answer answer.now ≡ true }
    ensures { OnOk result (line.new ≡ line.old ++ (codes " = " ++ (answer_text false answer.now ++ 10 ∷ []))) }
{
    line.extend(b" = ".as_slice())?;
    fill_answer(alloc, answer, false, line)?;
    line.extend(b"\n".as_slice())
}

/// Continues a line that already contains a command of a hand-off: adds ` = `, the answer to this command, and `; `.
/// The line isn't ended.
pub fn print_part(alloc: Global, answer: &Answer, line: &mut Octets) -> Result<(), Memory>
    requires { is_lease_answer answer.now ≡ true }
    ensures { OnOk result (line.new ≡ line.old ++ (codes " = " ++ (answer_text false answer.now ++ codes "; "))) }
{
    line.extend(b" = ".as_slice())?;
    fill_answer(alloc, answer, false, line)?;
    line.extend(b"; ".as_slice())
}

/// Ends the line of a hand-off: adds the word `refused` if the hand-off ended with a refusal, and otherwise the word
/// `handed`, and then a line feed.
pub fn print_left(left: Option<Left>, line: &mut Octets) -> Result<(), Memory>
    ensures { OnOk result (line.new ≡ line.old ++ (left_text left ++ 10 ∷ [])) }
{
    match left {
        Some(Left::Refused(_)) => line.extend(b"refused\n".as_slice()),
        _ => line.extend(b"handed\n".as_slice()),
    }
}
