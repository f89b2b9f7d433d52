//! Reads the task from the words of a command line.
ghost use Rattle.std.specs.Prelude.{◌≡◌, ◌≤◌, true, IfOk, IfSome, length, string_bytes};
ghost use Rattle.std.specs.List.{list_all};
ghost use Rattle.clap.specs.Words.{first_value, found_of, subcommand_rows_of};
ghost use Rattle.kds_cli_words.specs.Words.{IsWithin, task_of, texts_of};
ghost use Rattle.kds_cli_words.specs.Parsed.{has_hyphen, is_word, task_in, told_with};

use crate::command::kds_command;
use crate::numbers::{drill_task, serve_task};
use crate::task::Task;
use clap::ArgMatches;
use clap::error::ErrorKind;
use kds_base::Memory;
use std::alloc::Global;

fn has_leading_hyphen(word: &str) -> bool
    ensures { result ≡ has_hyphen word.now }
{
    match word.as_bytes().first() {
        Some(byte) => *byte == b'-',
        None => false,
    }
}

/// Whether a word is `--journal` (the only flag) or doesn't begin with a hyphen.
fn is_word_text(word: &str) -> bool
    ensures { result ≡ is_word word.now }
{
    word == "--journal" || !has_leading_hyphen(word)
}

/// Whether `is_word_text` holds for each of the words.
fn are_words(words: &Vec<String>) -> bool
    ensures { result ≡ list_all (λ w. is_word (string_bytes w)) words.now.items }
{
    words.iter().all(|word| is_word_text(word.as_str()))
}

/// Returns the task of the subcommand `name` with the arguments in `found`. Returns `None` if an argument is missing or
/// isn't a number in its range, or if no subcommand has this name.
fn told_with(name: &str, found: &ArgMatches) -> Option<Task>
    ensures task { result ≡ told_with name.now (first_value (found_of found.now)) }
    ensures within { IfSome result IsWithin }
{
    if name == "replay" {
        Some(Task::Replay {
            journal: found.get_str("journal") == Some("true"),
        })
    } else if name == "answer" {
        Some(Task::Answer)
    } else if name == "audit" {
        Some(Task::Audit)
    } else if name == "serve" {
        serve_task(found.get_str("port")?, found.get_str("members")?)
    } else if name == "drill" {
        drill_task(
            found.get_str("number")?,
            found.get_str("workers")?,
            found.get_str("records")?,
        )
    } else {
        None
    }
}

/// Reads the task from the result of a parse by `clap`. Returns `None` if this result has no valid task.
fn task_in(matches: &ArgMatches) -> Option<Task>
    ensures task { result ≡ task_in (subcommand_rows_of matches.now) }
    ensures within { IfSome result IsWithin }
{
    let (name, found) = matches.subcommand()?;
    told_with(name, found)
}

/// Parses the words with `clap`, and returns their task. Returns `None` if the words aren't a valid command line.
/// Preconditions: there are at most four words, and `is_word_text` holds for each.
fn parse_task(alloc: Global, words: &Vec<String>) -> Result<Option<Task>, Memory>
    requires few { length words.now.items ≤ 4 }
    requires words { list_all (λ w. is_word (string_bytes w)) words.now.items ≡ true }
    ensures task { IfOk result (λ task. task ≡ task_of (texts_of words.now.items)) }
    ensures within { IfOk result (λ task. IfSome task IsWithin) }
{
    let command = kds_command(alloc)?;
    match command.try_get_matches_from(words.as_slice()) {
        Ok(matches) => Ok(task_in(&matches)),
        Err(error) => match error.kind() {
            ErrorKind::OutOfMemory => Err(Memory),
            _ => Ok(None),
        },
    }
}

/// Returns the task of the words after the program's name, or `None` if the words aren't a valid command line. The
/// error means out of memory.
pub fn find_task(alloc: Global, words: &Vec<String>) -> Result<Option<Task>, Memory>
    ensures task { IfOk result (λ task. task ≡ task_of (texts_of words.now.items)) }
    ensures within { IfOk result (λ task. IfSome task IsWithin) }
{
    if words.len() > 4 {
        return Ok(None);
    }
    if !are_words(words) {
        return Ok(None);
    }
    parse_task(alloc, words)
}
