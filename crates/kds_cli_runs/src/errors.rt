//! Writes the program's messages to the error output. No memory is allocated for this.
ghost use Rattle.std.specs.Prelude.{◌≡◌, ◌⊎◌, ◌≤◌, OnOk};
ghost use Rattle.std.specs.Io.KnownBytes.{Appends};
ghost use Rattle.kds_ends.specs.Causes.{Rose, HasCause};
ghost use Rattle.kds_cli_runs.specs.Words.{error_text};

use itoa::Buffer;
use kds_ends::{Failed, Sink, Status, write_all};

fn write_number<E: Sink>(err: &mut E, number: u64) -> Result<(), Failed>
    ensures ok { OnOk result (Appends (E.held err.old) (E.held err.new) (error_text (Status.BadLine number))) }
    ensures cause { HasCause (E.faults err.old) (E.faults err.new) result }
{
    let mut buffer = Buffer::new();
    write_all(err, b"line ".as_slice())?;
    write_all(err, buffer.format(number).as_bytes())?;
    write_all(err, b": not a schedule line\n".as_slice())?;
    Ok(())
}

fn write_text<E: Sink>(err: &mut E, status: Status) -> Result<(), Failed>
    ensures ok { OnOk result (Appends (E.held err.old) (E.held err.new) (error_text status)) }
    ensures cause { HasCause (E.faults err.old) (E.faults err.new) result }
{
    match status {
        Status::Done => write_all(err, b"".as_slice()),
        Status::Unsound => write_all(err, b"".as_slice()),
        Status::Usage => write_all(
            err,
            b"usage: kds replay [--journal] | answer | audit | serve PORT MEMBERS | drill NUMBER WORKERS RECORDS\n".as_slice(),
        ),
        Status::BadLine(number) => write_number(err, number),
        Status::Read => write_all(err, b"read fault\n".as_slice()),
        Status::Write => write_all(err, b"write fault\n".as_slice()),
        Status::Memory => write_all(err, b"out of memory\n".as_slice()),
        Status::Cut => write_all(err, b"input ended inside a message\n".as_slice()),
        Status::Door => write_all(err, b"door fault\n".as_slice()),
        Status::TooLong => write_all(err, b"input too long\n".as_slice()),
        Status::Refused => write_all(err, b"message refused\n".as_slice()),
    }
}

/// Writes the message for the status of a run to the error output. The statuses Done and Unsound have no message. If
/// writing the message fails, the failure is ignored.
pub fn tell<E: Sink>(err: &mut E, status: Status)
    ensures { Appends (E.held err.old) (E.held err.new) (error_text status)
        ⊎ Rose (E.faults err.old) (E.faults err.new) }
{
    let _ = write_text(err, status);
}
