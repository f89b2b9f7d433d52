//! The text of commands on leases. `print_command` builds the text in a buffer of its own, and appends the text when it
//! is complete. A tenure is one worker's hold on a lease.
ghost use Rattle.std.specs.Prelude.{◌≡◌, ◌∷◌, ◌++◌, false, true, OnOk, OnErr};
ghost use Rattle.kds_defs.specs.Kinds.{is_counted, is_service};
ghost use Rattle.kcl_script_fields.specs.Fields.{AddsFront, worker_text};
ghost use Rattle.kcl_script_fields.specs.Commands.{target_text, command_text};
ghost use Rattle.kcl_script_fields.specs.Origins.{origin_text};

use crate::words::{number_field, with_key, with_number, with_numbers};
use kds_base::{Memory, Octets, WorkerNo, write_u64};
use kds_defs::{Command, Origin, Target};
use std::alloc::Global;

/// Appends a space and the worker `owner`. If memory runs out, a prefix of this text, possibly empty, has been
/// appended.
pub fn owner_field(alloc: Global, owner: WorkerNo, to: &mut Octets) -> Result<(), Memory>
    ensures ok { OnOk result (to.new ≡ to.old ++ 32 ∷ worker_text owner) }
    ensures err { OnErr result (AddsFront to.old to.new (32 ∷ worker_text owner)) }
{
    to.extend(b" w".as_slice())?;
    write_u64(alloc, owner.0 as u64, to)
}

/// Appends a space and the target of a command that sets a checkpoint. The target is a sequence number or the shard's
/// end. If memory runs out, a prefix of this text, possibly empty, has been appended.
pub fn target_field(alloc: Global, target: Target, to: &mut Octets) -> Result<(), Memory>
    ensures ok { OnOk result (to.new ≡ to.old ++ 32 ∷ target_text target) }
    ensures err { OnErr result (AddsFront to.old to.new (32 ∷ target_text target)) }
{
    match target {
        Target::At(q) => number_field(alloc, q.0, to),
        Target::End => to.extend(b" end".as_slice()),
    }
}

/// Appends a space and the origin, which says where reading of a shard begins. Appends nothing for TRIM_HORIZON. If
/// memory runs out, a prefix of this text, possibly empty, has been appended.
pub fn origin_field(alloc: Global, from: Origin, to: &mut Octets) -> Result<(), Memory>
    ensures ok { OnOk result (to.new ≡ to.old ++ origin_text from) }
    ensures err { OnErr result (AddsFront to.old to.new (origin_text from)) }
{
    match from {
        Origin::TrimHorizon => Ok(()),
        Origin::Latest => to.extend(b" latest".as_slice()),
        Origin::Time(at) => with_number(alloc, b" time".as_slice(), at.ms(), to),
    }
}

/// Appends the text of a command that names a tenure and then a counter or a position. Each command has exactly one
/// text. If memory runs out, a prefix of the text may have been appended.
fn fill_counted(alloc: Global, what: &Command, to: &mut Octets) -> Result<(), Memory>
    requires { is_counted what.now ≡ true }
    ensures { OnOk result (to.new ≡ to.old ++ command_text what.now) }
{
    match what {
        Command::Renew { tenure, counter } => {
            with_numbers(alloc, b"renew".as_slice(), tenure.0, *counter, to)
        }
        Command::Free { tenure, counter } => {
            with_numbers(alloc, b"free".as_slice(), tenure.0, *counter, to)
        }
        Command::Read {
            tenure,
            position,
            limit,
        } => {
            with_numbers(alloc, b"read".as_slice(), tenure.0, *position, to)?;
            number_field(alloc, *limit as u64, to)
        }
        Command::Mark {
            tenure,
            counter,
            to: target,
        } => {
            with_numbers(alloc, b"mark".as_slice(), tenure.0, *counter, to)?;
            target_field(alloc, *target, to)
        }
        _ => unreachable!(),
    }
}

/// Appends the text of a command on leases. If memory runs out, a prefix of the text may have been appended.
fn fill_command(alloc: Global, what: &Command, to: &mut Octets) -> Result<(), Memory>
    requires { is_service what.now ≡ false }
    ensures { OnOk result (to.new ≡ to.old ++ command_text what.now) }
{
    match what {
        Command::Survey => to.extend(b"survey".as_slice()),
        Command::MakeLease { key, from } => {
            with_key(alloc, b"make".as_slice(), *key, to)?;
            origin_field(alloc, *from, to)
        }
        Command::Take {
            key,
            counter,
            owner,
        } => {
            with_key(alloc, b"take".as_slice(), *key, to)?;
            number_field(alloc, *counter, to)?;
            owner_field(alloc, *owner, to)
        }
        Command::OpenShard { tenure } => with_number(alloc, b"open".as_slice(), tenure.0, to),
        Command::Give { tenure } => with_number(alloc, b"give".as_slice(), tenure.0, to),
        Command::CutLease { key, counter } => {
            with_key(alloc, b"cut".as_slice(), *key, to)?;
            number_field(alloc, *counter, to)
        }
        _ => fill_counted(alloc, what, to),
    }
}

/// Appends the text of a command on leases. No other text is read as this command, with one exception: the text `rows`
/// is also read as a survey, the command that lists the shards and the rows of the lease table. Precondition: the
/// command is a command on leases. If memory runs out, nothing is appended.
pub fn print_command(alloc: Global, what: &Command, to: &mut Octets) -> Result<(), Memory>
    requires { is_service what.now ≡ false }
    ensures ok { OnOk result (to.new ≡ to.old ++ command_text what.now) }
    ensures err { OnErr result (to.new ≡ to.old) }
{
    let mut text = Octets::new(alloc);
    fill_command(alloc, what, &mut text)?;
    to.extend(text.as_slice())
}
