//! Functions that add lines of output if the run outputs answers. The type `K` decides whether it does: `K` wants
//! answers if the run outputs them. If `K` doesn't want answers, these functions make no text and add nothing. A survey
//! is the lease command that lists the shards and the rows of the lease table.
ghost use Rattle.std.specs.Prelude.{◌≡◌, ◌∷◌, ◌++◌, [], codes, decimal, true, false, IsUtf8, OnOk};
ghost use Rattle.kds_defs.specs.Kinds.{is_lease_answer, is_service, is_service_answer};
ghost use Rattle.kds_reply.specs.Replies.{fault_reply, reply_of};
ghost use Rattle.kcl_script_fields.specs.Answers.{answer_text};
ghost use Rattle.kcl_script_fields.specs.Commands.{command_text};
ghost use Rattle.kcl_sim.specs.Keeping.{if_wanted};
ghost use Rattle.kcl_sim.specs.Output.{AddsWhole, left_text, printed};

use crate::keep::Keep;
use crate::print::{
    print_answered, print_fault, print_left, print_part, print_raw, print_reply, print_word,
    print_worker,
};
use kcl_hand::Left;
use kcl_script_fields::print_command;
use kds_base::{Memory, Octets};
use kds_defs::{Answer, Command};
use kds_json_members::Fault;
use std::alloc::Global;

/// Adds a line with the status and the body of the reply to a request, if `K` wants answers. If memory runs out,
/// nothing is added.
pub fn say_reply<K: Keep>(
    alloc: Global,
    answer: &Answer,
    line: &mut Octets,
    to: &mut Octets,
) -> Result<(), Memory>
    requires { is_service_answer answer.now ≡ true }
    ensures { AddsWhole result to.old to.new (if_wanted K.wanted (printed (reply_of answer.now))) }
{
    if K::wants_answers() {
        print_reply(alloc, answer, line, to)
    } else {
        Ok(())
    }
}

/// Adds the line of output for a faulty request, if `K` wants answers. If memory runs out, nothing is added.
pub fn say_fault<K: Keep>(
    alloc: Global,
    problem: &Fault,
    line: &mut Octets,
    to: &mut Octets,
) -> Result<(), Memory>
    requires { IsUtf8 problem.now.member }
    ensures { AddsWhole result to.old to.new (if_wanted K.wanted (printed (fault_reply problem.now))) }
{
    if K::wants_answers() {
        print_fault(alloc, problem, line, to)
    } else {
        Ok(())
    }
}

/// Adds a line with the text of the answer to a lease command, if `K` wants answers. `long` matters only for a survey:
/// if `long` is true, the text has each row of the lease table, and otherwise only the numbers of shards and rows. If
/// memory runs out, nothing is added.
pub fn say_raw<K: Keep>(
    alloc: Global,
    answer: &Answer,
    long: bool,
    line: &mut Octets,
    to: &mut Octets,
) -> Result<(), Memory>
    requires { is_lease_answer answer.now ≡ true }
    ensures { AddsWhole result to.old to.new (if_wanted K.wanted (answer_text long answer.now ++ 10 ∷ [])) }
{
    if K::wants_answers() {
        print_raw(alloc, answer, long, line, to)
    } else {
        Ok(())
    }
}

/// Adds a line that consists only of `word`, if `K` wants answers. If memory runs out, nothing is added.
pub fn say_word<K: Keep>(word: &[u8], line: &mut Octets, to: &mut Octets) -> Result<(), Memory>
    ensures { AddsWhole result to.old to.new (if_wanted K.wanted (word.now ++ 10 ∷ [])) }
{
    if K::wants_answers() {
        print_word(word, line, to)
    } else {
        Ok(())
    }
}

/// Adds the line `worker BY`, where BY is the number of a worker's actor, if `K` wants answers. If memory runs out,
/// nothing is added.
pub fn say_worker<K: Keep>(
    alloc: Global,
    by: u64,
    line: &mut Octets,
    to: &mut Octets,
) -> Result<(), Memory>
    ensures { AddsWhole result to.old to.new (if_wanted K.wanted (codes "worker " ++ (decimal by ++ 10 ∷ []))) }
{
    if K::wants_answers() {
        print_worker(alloc, by, line, to)
    } else {
        Ok(())
    }
}

/// Adds the text of a lease command, if `K` wants answers. If memory runs out, nothing is added.
pub fn say_command<K: Keep>(alloc: Global, what: &Command, to: &mut Octets) -> Result<(), Memory>
    requires { is_service what.now ≡ false }
    ensures { AddsWhole result to.old to.new (if_wanted K.wanted (command_text what.now)) }
{
    if K::wants_answers() {
        print_command(alloc, what, to)
    } else {
        Ok(())
    }
}

/// Ends a line that already contains the command of a worker, if `K` wants answers: adds ` = `, the answer to this
/// command, and a line feed.
pub fn say_answered<K: Keep>(
    alloc: Global,
    answer: &Answer,
    line: &mut Octets,
) -> Result<(), Memory>
    requires { is_lease_answer answer.now ≡ true }
    ensures { OnOk result (line.new ≡ line.old
        ++ if_wanted K.wanted (codes " = " ++ (answer_text false answer.now ++ 10 ∷ []))) }
{
    if K::wants_answers() {
        print_answered(alloc, answer, line)
    } else {
        Ok(())
    }
}

/// Continues a line that already contains a command of a hand-off, if `K` wants answers: adds ` = `, the answer to this
/// command, and `; `. The line isn't ended.
pub fn say_part<K: Keep>(alloc: Global, answer: &Answer, line: &mut Octets) -> Result<(), Memory>
    requires { is_lease_answer answer.now ≡ true }
    ensures { OnOk result (line.new ≡ line.old
        ++ if_wanted K.wanted (codes " = " ++ (answer_text false answer.now ++ codes "; "))) }
{
    if K::wants_answers() {
        print_part(alloc, answer, line)
    } else {
        Ok(())
    }
}

/// Ends the line of a hand-off, if `K` wants answers: adds the word `refused` if the hand-off ended with a refusal, and
/// otherwise the word `handed`, and then a line feed.
pub fn say_left<K: Keep>(left: Option<Left>, line: &mut Octets) -> Result<(), Memory>
    ensures { OnOk result (line.new ≡ line.old ++ if_wanted K.wanted (left_text left ++ 10 ∷ [])) }
{
    if K::wants_answers() {
        print_left(left, line)
    } else {
        Ok(())
    }
}
