//! Makes the tasks that have numeric arguments. A drill is a self-test whose input is generated from a number.
ghost use Rattle.std.specs.Prelude.{◌≡◌, ◌≤◌, IfSome};
ghost use Rattle.kds_cli_words.specs.Words.{IsWithin, drill_of, number_in, serve_of};

use crate::ranges::{MOST_MEMBERS, MOST_PORT, MOST_RECORDS};
use crate::task::Task;
use kds_base::read_u64;

/// Returns the decimal number that `text` spells, or `None` if `text` isn't a number from `low` to `high`, both
/// included.
fn number_between(low: u64, high: u64, text: &str) -> Option<u64>
    ensures value { result ≡ number_in low high text.now }
    ensures within { IfSome result (λ n. (low ≤ n) × (n ≤ high)) }
{
    let n = read_u64(text.as_bytes())?;
    if low <= n && n <= high { Some(n) } else { None }
}

/// Returns the task `serve` with this port and this maximum number of connections. Returns `None` if `port` isn't a
/// number from 1 to 65,535, or if `members` isn't a number from 1 to 64.
pub fn serve_task(port: &str, members: &str) -> Option<Task>
    ensures task { result ≡ serve_of port.now members.now }
    ensures within { IfSome result IsWithin }
{
    let port = number_between(1, MOST_PORT, port)?;
    let members = number_between(1, MOST_MEMBERS, members)?;
    Some(Task::Serve {
        port: port as u16,
        passes: members as u32,
    })
}

/// Returns the task `drill` with this drill number and these numbers of workers and of records. Returns `None` if
/// `number` isn't a number below 2^64, if `workers` isn't a number from 1 to 64, or if `records` isn't a number up to
/// 1,000,000.
pub fn drill_task(number: &str, workers: &str, records: &str) -> Option<Task>
    ensures task { result ≡ drill_of number.now workers.now records.now }
    ensures within { IfSome result IsWithin }
{
    let number = read_u64(number.as_bytes())?;
    let workers = number_between(1, MOST_MEMBERS, workers)?;
    let records = number_between(0, MOST_RECORDS, records)?;
    Some(Task::Drill {
        number,
        workers: workers as u32,
        records,
    })
}
