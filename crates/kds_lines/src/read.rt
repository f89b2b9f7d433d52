//! Reads an input to its end, and hands its lines to a taker, the consumer of the lines. A piece is the bytes of one
//! read.
ghost use Rattle.std.specs.Prelude.{◌≡◌, ◌<◌, ◌≤◌, [], List, ℕ, true, false, IfOk, IfErr, IsErrOf, IfSome};
ghost use Rattle.std.specs.Prelude.{if◌then◌else◌, length, ◌==◌, ◌+◌};
ghost use Rattle.std.specs.declared.option.Option.{Option};
ghost use Rattle.std.specs.Io.{ReadsAtMost};
ghost use Rattle.std.specs.Io.KnownBytes.{IsAtEnd, ReadConsumes};
ghost use Rattle.kds_ends.specs.Causes.{HasCause, Rose};
ghost use Rattle.kds_lines.specs.LineBuffer.{RunsOn, StopsRunning, IsStop, fed_count, lost_after};
ghost use Rattle.kds_lines.specs.Telling.{Told};

use crate::feed::feed;
use crate::line_buffer::LineBuffer;
use crate::outcome::Outcome;
use crate::sizes::PIECE_BYTES;
use crate::taker::Taker;
use kds_ends::{Failed, Sink, Source};
use std::alloc::Global;

/// Reads the next bytes of the input into `buffer`, and returns their number. Precondition: no output waits to be
/// written. Otherwise the read could wait forever, since a client may send nothing more until it has received the
/// answer to what it sent.
fn read_piece<S: Source>(
    _line_buffer: &LineBuffer,
    input: &mut S,
    buffer: &mut [u8],
) -> Result<usize, Failed>
    requires { _line_buffer.now.output ≡ [] }
    ensures bound { ReadsAtMost result buffer.new }
    ensures bytes { ReadConsumes (S.left input.old) (S.left input.new) result buffer.new }
    ensures cause { HasCause (S.faults input.old) (S.faults input.new) result }
{
    input.read(buffer)
}

/// Returns the outcome of the reading if the output for a piece of the input couldn't be written. `fed` is the result
/// of `feed` for this piece. If memory ran out in `feed`, the outcome is `Memory`, because a line may have been taken
/// in part. Otherwise the outcome is `Write`.
fn lost_after(fed: Result<(), Outcome>) -> Outcome
    ensures { result ≡ lost_after fed }
{
    match fed {
        Err(Outcome::Memory) => Outcome::Memory,
        _ => Outcome::Write,
    }
}

/// Reads the next piece of the input, hands the lines that the piece completes to the taker, and writes the output for
/// these lines. Returns `false` at the end of the input. Precondition: no output waits to be written.
fn next_piece<T: Taker, S: Source, K: Sink>(
    alloc: Global,
    taker: &mut T,
    line_buffer: &mut LineBuffer,
    input: &mut S,
    buffer: &mut [u8],
    out: &mut K,
) -> Result<bool, Outcome>
    requires some { 0 < length buffer.old }
    requires written { line_buffer.old.output ≡ [] }
    ensures goes_on { IfOk result (λ more. RunsOn (T.took taker.old) (T.took taker.new) T.output
        (S.left input.old) (S.left input.new) (K.held out.old) (K.held out.new) line_buffer.old line_buffer.new) }
    ensures grows { IfOk result (λ more. more ≡ true → fed_count line_buffer.old < fed_count line_buffer.new) }
    ensures ends { IfOk result (λ more. more ≡ false → IsAtEnd (S.left input.new)) }
    ensures err { IfErr result (λ o. StopsRunning (T.took taker.old) (T.took taker.new) T.output
        (S.left input.old) (S.left input.new) (K.held out.old) (K.held out.new)
        (T.broke taker.new) T.refuses o line_buffer.old) }
    ensures source_later { S.faults input.old ≤ S.faults input.new }
    ensures sink_later { K.faults out.old ≤ K.faults out.new }
    ensures read { IsErrOf result Outcome.Read → Rose (S.faults input.old) (S.faults input.new) }
    ensures write { IsErrOf result Outcome.Write → Rose (K.faults out.old) (K.faults out.new) }
    ensures kinds { IfErr result IsStop }
{
    match read_piece(line_buffer, input, buffer) {
        Ok(0) => Ok(false),
        Ok(count) => {
            let (piece, _) = buffer.split_at(count);
            let fed = feed(alloc, taker, line_buffer, piece, out);
            match line_buffer.flush(out) {
                Ok(()) => {}
                Err(_) => return Err(lost_after(fed)),
            }
            match fed {
                Ok(()) => Ok(true),
                Err(outcome) => Err(outcome),
            }
        }
        Err(_) => Err(Outcome::Read),
    }
}

/// Returns the outcome at the end of the input: `Unfinished` if the input ended with a line without a line feed,
/// otherwise `Whole`.
fn last(line_buffer: &LineBuffer) -> Outcome
    ensures { result ≡ (if length line_buffer.now.held
        == 0 then Outcome.Whole else Outcome.Unfinished (line_buffer.now.count + 1)) }
{
    if line_buffer.held.as_slice().is_empty() {
        Outcome::Whole
    } else {
        Outcome::Unfinished(line_buffer.count + 1)
    }
}

/// Hands the lines of `input` to the taker, one after another, and writes the output for the lines to `out`. The output
/// for all lines that one read completes is written before the next read. Before a line is handed to the taker, first
/// its length and then the length of the input so far are checked against their limits. Reading ends at the end of the
/// input, at the first line that fails a check, or at the first line at which the taker stops. Precondition: the taker
/// took no line before. The outcome `Read` means that the source failed, `Write` means that the sink failed, and
/// `Memory` means that memory ran out.
pub fn read_lines<T: Taker, S: Source, K: Sink>(
    alloc: Global,
    taker: &mut T,
    input: &mut S,
    out: &mut K,
) -> Outcome
    requires { T.took taker.old [] }
    ensures told { IfSome (S.left input.old) (λ bytes.
        Told result (T.took taker.new) (T.broke taker.new) T.refuses T.output bytes
        (S.left input.new) (K.held out.old) (K.held out.new)) }
    ensures read { result ≡ Outcome.Read → Rose (S.faults input.old) (S.faults input.new) }
    ensures write { result ≡ Outcome.Write → Rose (K.faults out.old) (K.faults out.new) }
    ensures later { K.faults out.old ≤ K.faults out.new }
{
    let mut buffer = [0u8; PIECE_BYTES];
    let mut line_buffer = LineBuffer::new(alloc);
    loop {
        match next_piece(alloc, taker, &mut line_buffer, input, &mut buffer, out) {
            Ok(true) => {}
            Ok(false) => return last(&line_buffer),
            Err(outcome) => return outcome,
        }
    }
}
