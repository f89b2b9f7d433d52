//! The result of a run, and how it differs from an expected result.
use crate::harness::cases::Leaves;
use kds_base::{Items, Memory};
use kds_cli_runs::tell;
use kds_ends::{MemSink, Status};
use std::alloc::Global;

/// The text that is shown in place of a line if a text ends before this line.
const END: &str = "(the end)";

/// Returns the first line in which the two texts differ: its number, counted from 1, its text in `given`, and its text
/// in `wanted`.
fn first_line<'a>(given: &'a str, wanted: &'a str) -> (usize, &'a str, &'a str) {
    let mut others = wanted.split('\n');
    let mut number = 1usize;
    for line in given.split('\n') {
        let other = others.next().unwrap_or(END);
        if line != other {
            return (number, line, other);
        }
        number = number.saturating_add(1);
    }
    (number, END, others.next().unwrap_or(END))
}

/// The capacity of the error output, in bytes.
const ROOM: usize = 256;

/// The result of a run: its status, its output, and the message for the status on the error output.
#[derive(Drop)]
pub struct Left {
    pub status: Status,
    pub out: MemSink,
    pub err: MemSink,
}

impl Left {
    /// Returns the result of a run that ended with `status` and wrote `out`. The error output of the result is the
    /// message for `status`.
    pub fn new(alloc: Global, status: Status, out: MemSink) -> Result<Left, Memory> {
        let mut err = MemSink::new(alloc, ROOM, ROOM, Items::new(alloc))?;
        tell(&mut err, status);
        Ok(Left { status, out, err })
    }

    /// Describes how this result differs from the expected result `leaves`. The expected output is a prefix of `out`.
    /// The length of this prefix is in `leaves`. The returned text is empty if there is no difference.
    pub fn other_leaving(
        &self,
        alloc: Global,
        out: &str,
        leaves: Leaves,
    ) -> Result<String, Memory> {
        let (code, written, err) = leaves;
        match out.as_bytes().get(..written) {
            Some(front) => self.other(alloc, code, front, err),
            None => Ok(format!(in alloc; "a case of {written} bytes of a shorter output")?),
        }
    }

    /// Describes how this result differs from the exit status `code`, the output `out` and the error output `err`. Of
    /// the output, only the first line that differs is shown. The returned text is empty if there is no difference.
    pub fn other(&self, alloc: Global, code: u8, out: &[u8], err: &str) -> Result<String, Memory> {
        let mut other = String::new(alloc);
        let status = self.status.code();
        if status != code {
            other.push_str(format!(in alloc; "status {status} in place of {code}\n")?.as_str())?;
        }
        if self.err.held() != err.as_bytes() {
            let told = String::from_utf8_lossy(alloc, self.err.held())?;
            let text = format!(in alloc; "error output {told:?} in place of {err:?}\n")?;
            other.push_str(text.as_str())?;
        }
        if self.out.held() != out {
            let given = String::from_utf8_lossy(alloc, self.out.held())?;
            let wanted = String::from_utf8_lossy(alloc, out)?;
            let (number, line, want) = first_line(given.as_str(), wanted.as_str());
            let text = format!(in alloc;
                "line {number} of the output\n  {line}\nin place of\n  {want}\n"
            )?;
            other.push_str(text.as_str())?;
        }
        Ok(other)
    }
}
