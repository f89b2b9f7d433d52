//! Splits a piece of the input into lines, and hands the lines to a taker. A piece is the bytes of one read. The taker
//! is the consumer of the lines. The pending output is the output that waits to be written.
ghost use Rattle.std.specs.Prelude.{◌≡◌, [], ◌∷◌, ◌++◌, ◌+◌, ◌≤◌, ◌<◌, List, ℕ, length, true, false, OnOk, OnErr, IfOk};
ghost use Rattle.std.specs.Prelude.{IfErr, IsErrOf, MatchOption};
ghost use Rattle.std.specs.declared.option.Option.{Option};
ghost use Rattle.kds_ends.specs.Causes.{Rose};
ghost use Rattle.kds_defs.specs.declared.limits.TheConstants.{LINE_BYTES};
ghost use Rattle.kds_lines.specs.Lines.{NoFeed, HasFeedAt, Fed, is_too_long};
ghost use Rattle.kds_lines.specs.LineBuffer.{EndsLine, Feeds, FeedsFront, HoldStops, IsOwnStop, IsFeedStop, StopsIn};
ghost use Rattle.kds_lines.specs.LineBuffer.{StopsInLine, fed_count};
ghost use Rattle.kds_lines.specs.Taking.{Goes, Breaks};

use crate::line_buffer::LineBuffer;
use crate::outcome::Outcome;
use crate::sizes::OUTPUT_BYTES;
use crate::taker::Taker;
use kds_base::{Memory, Octets};
use kds_defs::limits::{INPUT_BYTES, LINE_BYTES};
use kds_ends::Sink;
use memchr::memchr;
use std::alloc::Global;

/// Returns the index of the first line feed in `bytes`, or `None` if `bytes` has no line feed.
fn first_feed(bytes: &[u8]) -> Option<usize>
    ensures { MatchOption result (NoFeed bytes.now) (HasFeedAt bytes.now) }
{
    memchr(b'\n', bytes)
}

/// Whether a line of `len` bytes is longer than `LINE_BYTES`, or an input of `total` bytes is longer than
/// `INPUT_BYTES`.
fn is_too_long(len: usize, total: u64) -> bool
    ensures { result ≡ is_too_long len total }
{
    len as u64 > LINE_BYTES || total > INPUT_BYTES
}

/// Returns the length, in bytes, of the line that consists of `held` followed by `tail`.
fn joined_length(held: &Octets, tail: &[u8]) -> usize
    requires { length held.now ≤ LINE_BYTES }
    ensures { result ≡ length (held.now ++ tail.now) }
{
    held.as_slice().len() + tail.len()
}

/// Hands a line to the taker: the bytes of `held`, followed by those of `tail`. Returns whether the reading of the
/// input continues. If `held` is empty, no bytes are copied.
fn take_joined<T: Taker>(
    alloc: Global,
    taker: &mut T,
    held: &mut Octets,
    tail: &[u8],
    output: &mut Octets,
) -> Result<bool, Memory>
    ensures goes { IfOk result (λ more. more ≡ true → (lines : List (List ℕ)) → T.took taker.old lines
        → Goes (T.took taker.new) T.output lines (held.old ++ tail.now) output.old output.new) }
    ensures stops { IfOk result (λ more. more ≡ false → (lines : List (List ℕ)) → T.took taker.old lines
        → T.took taker.new lines × T.refuses lines (held.old ++ tail.now)) }
    ensures silent { IfOk result (λ more. more ≡ false → output.new ≡ output.old) }
    ensures breaks { OnErr result ((lines : List (List ℕ)) → T.took taker.old lines
        → Breaks (T.took taker.new) (T.broke taker.new) T.output lines (held.old ++ tail.now)) }
    ensures same { OnErr result (output.new ≡ output.old) }
    ensures size { length held.new ≤ length held.old + length tail.now }
{
    if held.as_slice().is_empty() {
        return taker.take(alloc, tail, output);
    }
    held.extend(tail)?;
    taker.take(alloc, held.as_slice(), output)
}

/// Completes the unfinished line in `line_buffer`, and hands the whole line to the taker. `tail` is the rest of the
/// line, without its line feed. Fails if the line or the input is too long, if the taker stops the reading, or if
/// memory runs out.
fn end_line<T: Taker>(
    alloc: Global,
    taker: &mut T,
    line_buffer: &mut LineBuffer,
    tail: &[u8],
) -> Result<(), Outcome>
    ensures ok { OnOk result ((held : Option (List ℕ)) →
        EndsLine (T.took taker.old) (T.took taker.new) T.output line_buffer.old line_buffer.new held held tail.now) }
    ensures err { IfErr result (λ o. (held : Option (List ℕ)) →
        StopsInLine (T.took taker.old) (T.took taker.new) T.output line_buffer.old line_buffer.new held held
        (T.broke taker.new) T.refuses o tail.now) }
    ensures count { OnOk result (fed_count line_buffer.new ≡ fed_count line_buffer.old + length tail.now + 1) }
    ensures kinds { IfErr result IsOwnStop }
{
    let len = joined_length(&line_buffer.held, tail);
    let total = line_buffer.used + len as u64 + 1;
    if is_too_long(len, total) {
        return Err(Outcome::TooLong);
    }
    let number = line_buffer.count + 1;
    match take_joined(
        alloc,
        taker,
        &mut line_buffer.held,
        tail,
        &mut line_buffer.output,
    ) {
        Ok(true) => {
            line_buffer.held.clear();
            line_buffer.used = total;
            line_buffer.count = number;
            Ok(())
        }
        Ok(false) => Err(Outcome::Stopped(number)),
        Err(_) => Err(Outcome::Memory),
    }
}

/// Completes the unfinished line in `line_buffer`, and hands the whole line to the taker. Then writes the pending
/// output if it has `OUTPUT_BYTES` bytes or more. `tail` is the rest of the line, without its line feed.
fn next_line<T: Taker, K: Sink>(
    alloc: Global,
    taker: &mut T,
    line_buffer: &mut LineBuffer,
    tail: &[u8],
    out: &mut K,
) -> Result<(), Outcome>
    ensures ok { OnOk result
        (EndsLine (T.took taker.old) (T.took taker.new) T.output line_buffer.old line_buffer.new
        (K.held out.old) (K.held out.new) tail.now) }
    ensures err { IfErr result (λ o.
        StopsInLine (T.took taker.old) (T.took taker.new) T.output line_buffer.old line_buffer.new
        (K.held out.old) (K.held out.new) (T.broke taker.new) T.refuses o tail.now) }
    ensures count { OnOk result (fed_count line_buffer.new ≡ fed_count line_buffer.old + length tail.now + 1) }
    ensures bounded { OnOk result (length line_buffer.new.output < OUTPUT_BYTES) }
    ensures later { K.faults out.old ≤ K.faults out.new }
    ensures write { IsErrOf result Outcome.Write → Rose (K.faults out.old) (K.faults out.new) }
    ensures kinds { IfErr result IsFeedStop }
{
    end_line(alloc, taker, line_buffer, tail)?;
    match line_buffer.spill(out) {
        Ok(()) => Ok(()),
        Err(_) => Err(Outcome::Write),
    }
}

/// Completes each line whose line feed is in `piece`, and hands the line to the taker. Returns the bytes after the last
/// line feed of the piece. Precondition: fewer than `OUTPUT_BYTES` bytes of output wait to be written.
fn feed_lines<'a, T: Taker, K: Sink>(
    alloc: Global,
    taker: &mut T,
    line_buffer: &mut LineBuffer,
    piece: &'a [u8],
    out: &mut K,
) -> Result<&'a [u8], Outcome>
    requires { length line_buffer.old.output < OUTPUT_BYTES }
    ensures ok { IfOk result (λ rest.
        FeedsFront (T.took taker.old) (T.took taker.new) T.output line_buffer.old line_buffer.new
        (K.held out.old) (K.held out.new) piece.entry.now rest.now) }
    ensures rest { IfOk result (λ rest. NoFeed rest.now) }
    ensures count { IfOk result (λ rest. fed_count line_buffer.new + length rest.now ≡ fed_count line_buffer.old
        + length piece.entry.now) }
    ensures bounded { OnOk result (length line_buffer.new.output < OUTPUT_BYTES) }
    ensures err { IfErr result (λ o.
        StopsIn (T.took taker.old) (T.took taker.new) T.output line_buffer.old line_buffer.new
        (K.held out.old) (K.held out.new)
        (T.broke taker.new) T.refuses o piece.entry.now) }
    ensures later { K.faults out.old ≤ K.faults out.new }
    ensures write { IsErrOf result Outcome.Write → Rose (K.faults out.old) (K.faults out.new) }
    ensures kinds { IfErr result IsFeedStop }
{
    let mut rest = piece;
    while let Some(at) = first_feed(rest) {
        let (tail, after) = rest.split_at(at);
        if let Err(outcome) = next_line(alloc, taker, line_buffer, tail, out) {
            return Err(outcome);
        }
        let (_, next) = after.split_at(1);
        rest = next;
    }
    Ok(rest)
}

/// Appends `rest`, which has no line feed, to the unfinished line that `line_buffer` holds. Fails if the line or the
/// input becomes too long, or if memory runs out.
fn hold(line_buffer: &mut LineBuffer, rest: &[u8]) -> Result<(), Outcome>
    ensures ok { OnOk result ((fed : List ℕ) (texts : List (List ℕ))
        → Fed fed texts line_buffer.old.used line_buffer.old.held
        → NoFeed rest.now
        → Fed (fed ++ rest.now) texts line_buffer.new.used line_buffer.new.held) }
    ensures output { line_buffer.new.output ≡ line_buffer.old.output }
    ensures lines { line_buffer.new.count ≡ line_buffer.old.count }
    ensures count { OnOk result (fed_count line_buffer.new ≡ fed_count line_buffer.old + length rest.now) }
    ensures err { IfErr result (λ o. (fed : List ℕ) (texts : List (List ℕ))
        → Fed fed texts line_buffer.old.used line_buffer.old.held → NoFeed rest.now
        → HoldStops o (fed ++ rest.now) texts) }
    ensures kinds { IfErr result IsOwnStop }
{
    let len = joined_length(&line_buffer.held, rest);
    if is_too_long(len, line_buffer.used + len as u64) {
        return Err(Outcome::TooLong);
    }
    match line_buffer.held.extend(rest) {
        Ok(()) => Ok(()),
        Err(_) => Err(Outcome::Memory),
    }
}

/// Hands to the taker the lines that the next piece of the input completes. Keeps the bytes after the last line feed of
/// the piece for the next call. Precondition: fewer than `OUTPUT_BYTES` bytes of output wait to be written. This is
/// true again after a call that succeeds.
pub fn feed<T: Taker, K: Sink>(
    alloc: Global,
    taker: &mut T,
    line_buffer: &mut LineBuffer,
    piece: &[u8],
    out: &mut K,
) -> Result<(), Outcome>
    requires { length line_buffer.old.output < OUTPUT_BYTES }
    ensures ok { OnOk result
        (Feeds (T.took taker.old) (T.took taker.new) T.output line_buffer.old line_buffer.new
        (K.held out.old) (K.held out.new) piece.now) }
    ensures count { OnOk result (fed_count line_buffer.new ≡ fed_count line_buffer.old + length piece.now) }
    ensures bounded { OnOk result (length line_buffer.new.output < OUTPUT_BYTES) }
    ensures err { IfErr result (λ o.
        StopsIn (T.took taker.old) (T.took taker.new) T.output line_buffer.old line_buffer.new
        (K.held out.old) (K.held out.new)
        (T.broke taker.new) T.refuses o piece.now) }
    ensures later { K.faults out.old ≤ K.faults out.new }
    ensures write { IsErrOf result Outcome.Write → Rose (K.faults out.old) (K.faults out.new) }
    ensures kinds { IfErr result IsFeedStop }
{
    let rest = feed_lines(alloc, taker, line_buffer, piece, out)?;
    match hold(line_buffer, rest) {
        Ok(()) => Ok(()),
        Err(outcome) => Err(outcome),
    }
}
