//! Proves that the numbers in a turn fit their machine types, such as `u64`. A turn is a command with its time and its
//! sender. The number of the sender is called the actor. The law `sound_histories` has this fact as a condition. The
//! law says that an audit, the verifier of journals, accepts the text of a journal (decision 79).
ghost use Rattle.std.specs.Prelude.{◌<◌, ◌^◌};
ghost use Rattle.kcl_script_fields.specs.Commands.{AreNumbers, IsKey, IsTarget};
ghost use Rattle.kcl_script_fields.specs.Origins.{IsOrigin};
ghost use Rattle.kcl_audit_sound.specs.Bits.{HasBits, HaveBits};

use kds_base::{ShardRef, TenureNo};
use kds_defs::{Command, Origin, Target, Turn};

fn has_32_bits(n: u32)
    ensures { n < 2 ^ 32 }
{
    let _ = n;
}

fn has_64_bits(n: u64)
    ensures { n < 2 ^ 64 }
{
    let _ = n;
}

fn have_64_bits(tenure: TenureNo, n: u64)
    ensures { (tenure < 2 ^ 64) × (n < 2 ^ 64) }
{
    has_64_bits(tenure.0);
    has_64_bits(n);
}

fn is_key(key: &ShardRef)
    ensures { IsKey key.now }
{
    has_64_bits(key.stream.0);
    has_64_bits(key.shard.0);
}

fn is_origin(from: &Origin)
    ensures { IsOrigin from.now }
{
    if let Origin::Time(moment) = from {
        let _ = moment.ms();
    }
}

fn is_target(to: &Target)
    ensures { IsTarget to.now }
{
    if let Target::At(q) = to {
        has_64_bits(q.0);
    }
}

/// Proves that the numbers in a lease command fit their machine types.
fn are_numbers(what: &Command)
    ensures { AreNumbers what.now }
{
    match what {
        Command::MakeLease { key, from } => {
            is_key(key);
            is_origin(from);
        }
        Command::Take {
            key,
            counter,
            owner,
        } => {
            is_key(key);
            has_64_bits(*counter);
            has_32_bits(owner.0);
        }
        Command::Renew { tenure, counter } | Command::Free { tenure, counter } => {
            have_64_bits(*tenure, *counter)
        }
        Command::OpenShard { tenure } | Command::Give { tenure } => has_64_bits(tenure.0),
        Command::Read {
            tenure,
            position,
            limit: _,
        } => have_64_bits(*tenure, *position),
        Command::Mark {
            tenure,
            counter,
            to,
        } => {
            have_64_bits(*tenure, *counter);
            is_target(to);
        }
        Command::CutLease { key, counter } => {
            is_key(key);
            has_64_bits(*counter);
        }
        _ => {}
    }
}

/// Proves that the actor of a turn and the numbers in its command fit their machine types. At run time the function
/// only visits the numbers.
pub fn fits_types(turn: &Turn)
    ensures { HasBits turn.now }
{
    has_32_bits(turn.by);
    are_numbers(&turn.what);
}

/// Proves for each turn that its actor and the numbers in its command fit their machine types. At run time the function
/// only visits the turns.
pub fn all_fit_types(turns: &[Turn])
    ensures { HaveBits turns.now }
{
    for turn in turns {
        fits_types(turn);
    }
}
