//! Tests of which words on the command line ask for which task.
use kds_cli_words::{Task, find_task};
use std::alloc::Global;
use std::test::Fail;

/// Command lines that ask for each of the tasks. Each number in these lines is the least or the greatest number that is
/// allowed.
const TASKS: [(&str, Task); 8] = [
    ("replay", Task::Replay { journal: false }),
    ("replay --journal", Task::Replay { journal: true }),
    ("answer", Task::Answer),
    ("audit", Task::Audit),
    ("serve 1 1", Task::Serve { port: 1, passes: 1 }),
    (
        "serve 65535 64",
        Task::Serve {
            port: 65535,
            passes: 64,
        },
    ),
    (
        "drill 0 1 0",
        Task::Drill {
            number: 0,
            workers: 1,
            records: 0,
        },
    ),
    (
        "drill 18446744073709551615 64 1000000",
        Task::Drill {
            number: u64::MAX,
            workers: 64,
            records: 1_000_000,
        },
    ),
];

/// Command lines that ask for no task.
const OTHERS: [&str; 43] = [
    "",
    " ",
    "play",
    "Replay",
    "repla",
    "replays",
    "--",
    "-h",
    "--help",
    "--version",
    "help",
    "help replay",
    "--journal",
    "--journal replay",
    "replay x",
    "replay ",
    "replay --",
    "replay -- --journal",
    "replay -j",
    "replay --journa",
    "replay --journal=x",
    "replay --journal --journal",
    "replay --help",
    "answer x",
    "answer ",
    "answer --journal",
    "audit -",
    "serve",
    "serve 4567",
    "serve 0 3",
    "serve 65536 3",
    "serve 4567 0",
    "serve 4567 65",
    "serve 04567 3",
    "serve +4567 3",
    "serve 4567 3 3",
    "drill 1 2",
    "drill 01 2 0",
    "drill 1 0 0",
    "drill 1 65 0",
    "drill 1 2 1000001",
    "drill 18446744073709551616 2 0",
    "drill 1 2 0 0",
];

/// Splits a text into its words, at single spaces. The empty text has no words.
fn words_of(alloc: Global, text: &str) -> Result<Vec<String>, Fail> {
    let mut words = Vec::new(alloc);
    if !text.is_empty() {
        for word in text.split(' ') {
            words.push(word.to_string(alloc)?)?;
        }
    }
    Ok(words)
}

#[test]
fn words_name_a_task(rt: HostRuntime) -> Result<(), Fail> {
    for (text, task) in TASKS {
        let words = words_of(rt.alloc(), text)?;
        assert_eq!(rt; find_task(rt.alloc(), &words)?, Some(task), "of {text}");
    }
    Ok(())
}

#[test]
fn other_words_name_no_task(rt: HostRuntime) -> Result<(), Fail> {
    for text in OTHERS {
        let words = words_of(rt.alloc(), text)?;
        assert_eq!(rt; find_task(rt.alloc(), &words)?, None, "of {text}");
    }
    Ok(())
}
