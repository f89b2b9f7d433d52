//! Reads commands on leases, as they are written in the raw lines of a schedule (a recorded workload). If a text can't
//! be read, the result is `None`.
ghost use Rattle.std.specs.Prelude.{◌≡◌, option_map};
ghost use Rattle.kcl_script_fields.specs.Fields.{two, number, count_of, worker_of, key_of};
ghost use Rattle.kcl_script_fields.specs.Commands.{target_of, row_of, make_of, take_of, renew_of, free_of, open_of};
ghost use Rattle.kcl_script_fields.specs.Commands.{read_of, give_of, mark_of, cut_of, words_of, longer_of, command_of};

use crate::fields::{count, field, key_of, two_numbers, worker};
use crate::origins::origin;
use kds_base::{Seq, ShardRef, TenureNo, read_u64};
use kds_defs::limits::MOST;
use kds_defs::{Command, Origin, Target};

/// Reads the target to which a checkpoint is set: a record's sequence number, or `end`.
pub fn target(text: &[u8]) -> Option<Target>
    ensures { result ≡ target_of text.now }
{
    if text == b"end".as_slice() {
        Some(Target::End)
    } else {
        let number = read_u64(text)?;
        Some(Target::At(Seq(number)))
    }
}

/// Reads the key of a lease, and the origin at which the lease's row begins. If the text is only a key, the origin is
/// TRIM_HORIZON.
pub fn row(text: &[u8]) -> Option<(ShardRef, Origin)>
    ensures { result ≡ row_of text.now }
{
    match field(text) {
        Some((first, rest)) => {
            let key = key_of(first)?;
            let from = origin(rest)?;
            Some((key, from))
        }
        None => {
            let key = key_of(text)?;
            Some((key, Origin::TrimHorizon))
        }
    }
}

fn parse_make(text: &[u8]) -> Option<Command>
    ensures { result ≡ make_of text.now }
{
    let (key, from) = row(text)?;
    Some(Command::MakeLease { key, from })
}

#[tactic(auto, unfolding(crate::specs::Fields::two))]
fn parse_take(text: &[u8]) -> Option<Command>
    ensures { result ≡ take_of text.now }
{
    let (first, rest) = field(text)?;
    let key = key_of(first)?;
    let (second, third) = field(rest)?;
    let counter = read_u64(second)?;
    let owner = worker(third)?;
    Some(Command::Take {
        key,
        counter,
        owner,
    })
}

fn parse_renew(text: &[u8]) -> Option<Command>
    ensures { result ≡ renew_of text.now }
{
    let (tenure, counter) = two_numbers(text, b' ')?;
    Some(Command::Renew {
        tenure: TenureNo(tenure),
        counter,
    })
}

fn parse_free(text: &[u8]) -> Option<Command>
    ensures { result ≡ free_of text.now }
{
    let (tenure, counter) = two_numbers(text, b' ')?;
    Some(Command::Free {
        tenure: TenureNo(tenure),
        counter,
    })
}

fn parse_open(text: &[u8]) -> Option<Command>
    ensures { result ≡ open_of text.now }
{
    let tenure = read_u64(text)?;
    Some(Command::OpenShard {
        tenure: TenureNo(tenure),
    })
}

#[tactic(auto, unfolding(crate::specs::Fields::two))]
fn parse_read(text: &[u8]) -> Option<Command>
    ensures { result ≡ read_of text.now }
{
    let (first, rest) = field(text)?;
    let tenure = read_u64(first)?;
    let (second, third) = field(rest)?;
    let position = read_u64(second)?;
    let limit = count(third, MOST)?;
    Some(Command::Read {
        tenure: TenureNo(tenure),
        position,
        limit,
    })
}

fn parse_give(text: &[u8]) -> Option<Command>
    ensures { result ≡ give_of text.now }
{
    let tenure = read_u64(text)?;
    Some(Command::Give {
        tenure: TenureNo(tenure),
    })
}

#[tactic(auto, unfolding(crate::specs::Fields::two))]
fn parse_mark(text: &[u8]) -> Option<Command>
    ensures { result ≡ mark_of text.now }
{
    let (first, rest) = field(text)?;
    let tenure = read_u64(first)?;
    let (second, third) = field(rest)?;
    let counter = read_u64(second)?;
    let to = target(third)?;
    Some(Command::Mark {
        tenure: TenureNo(tenure),
        counter,
        to,
    })
}

#[tactic(auto, unfolding(crate::specs::Fields::two))]
fn parse_cut(text: &[u8]) -> Option<Command>
    ensures { result ≡ cut_of text.now }
{
    let (first, second) = field(text)?;
    let key = key_of(first)?;
    let counter = read_u64(second)?;
    Some(Command::CutLease { key, counter })
}

/// Reads the command whose first word is `word`. `text` is the rest of the command, after this word and a space.
fn parse_command(word: &[u8], text: &[u8]) -> Option<Command>
    ensures { result ≡ words_of word.now text.now }
{
    if word == b"make".as_slice() {
        parse_make(text)
    } else if word == b"take".as_slice() {
        parse_take(text)
    } else if word == b"renew".as_slice() {
        parse_renew(text)
    } else if word == b"free".as_slice() {
        parse_free(text)
    } else if word == b"open".as_slice() {
        parse_open(text)
    } else if word == b"read".as_slice() {
        parse_read(text)
    } else if word == b"give".as_slice() {
        parse_give(text)
    } else if word == b"mark".as_slice() {
        parse_mark(text)
    } else if word == b"cut".as_slice() {
        parse_cut(text)
    } else {
        None
    }
}

/// Reads a command that has more than one word.
fn longer(text: &[u8]) -> Option<Command>
    ensures { result ≡ longer_of text.now }
{
    let (word, rest) = field(text)?;
    parse_command(word, rest)
}

/// Reads a command. The returned `bool` says whether the command asks for the long form of its answer. Only the text
/// `rows` asks for it. The text `rows` is a survey whose answer has each row of the lease table.
pub fn raw_command(text: &[u8]) -> Option<(Command, bool)>
    ensures { result ≡ command_of text.now }
{
    if text == b"survey".as_slice() {
        Some((Command::Survey, false))
    } else if text == b"rows".as_slice() {
        Some((Command::Survey, true))
    } else {
        let what = longer(text)?;
        Some((what, false))
    }
}
