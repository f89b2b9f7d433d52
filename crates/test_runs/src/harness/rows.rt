//! Tables of runs with their expected results. A row of such a table is one run.
use crate::harness::runs::{Run, run_on};
use kds_base::Memory;
use std::alloc::Global;

/// A run: its input, and the expected exit status, output and error output.
pub type Row = (&'static str, u8, &'static str, &'static str);

/// A row with a name. A failing test prints the name.
pub type Named = (&'static str, Row);

/// Runs a row once for each size in `steps`, with input and output in pieces of this many bytes. Describes the first
/// result that isn't the expected one. The returned text is empty if all results are as expected.
fn other_of(alloc: Global, run: Run, row: &Row, steps: &[usize]) -> Result<String, Memory> {
    let (input, code, out, err) = row;
    for step in steps {
        let left = run_on(alloc, run, input.as_bytes(), (*step).max(1), &[], &[])?;
        let other = left.other(alloc, *code, out.as_bytes(), err)?;
        if !other.is_empty() {
            return Ok(format!(in alloc; "by pieces of {step}:\n{other}")?);
        }
    }
    Ok(String::new(alloc))
}

/// Runs each row once for each size in `steps`, with input and output in pieces of this many bytes. Names the first row
/// with an unexpected result, and describes this result. The returned text is empty if all results are as expected.
pub fn first_other(
    alloc: Global,
    run: Run,
    rows: &[Named],
    steps: &[usize],
) -> Result<String, Memory> {
    for (name, row) in rows {
        let other = other_of(alloc, run, row, steps)?;
        if !other.is_empty() {
            return Ok(format!(in alloc; "{name}, {other}")?);
        }
    }
    Ok(String::new(alloc))
}
