//! Appends words, numbers and lease keys to a text. If memory runs out in one of these functions, a prefix of its text,
//! possibly empty, has been appended.
ghost use Rattle.std.specs.Prelude.{◌≡◌, ◌∷◌, ◌++◌, decimal, OnErr, OnOk};
ghost use Rattle.kcl_script_fields.specs.Fields.{AddsFront, key_text};

use kds_base::{Memory, Octets, ShardRef, write_u64};
use std::alloc::Global;

/// Appends a space and the number `n` in decimal.
pub fn number_field(alloc: Global, n: u64, to: &mut Octets) -> Result<(), Memory>
    ensures ok { OnOk result (to.new ≡ to.old ++ 32 ∷ decimal n) }
    ensures err { OnErr result (AddsFront to.old to.new (32 ∷ decimal n)) }
{
    to.extend(b" ".as_slice())?;
    write_u64(alloc, n, to)
}

/// Appends a word, a space and the number `n` in decimal.
pub fn with_number(alloc: Global, word: &[u8], n: u64, to: &mut Octets) -> Result<(), Memory>
    ensures ok { OnOk result (to.new ≡ to.old ++ (word.now ++ 32 ∷ decimal n)) }
    ensures err { OnErr result (AddsFront to.old to.new (word.now ++ 32 ∷ decimal n)) }
{
    to.extend(word)?;
    number_field(alloc, n, to)
}

/// Appends a word and the numbers `n` and `m` in decimal, each after a space.
pub fn with_numbers(
    alloc: Global,
    word: &[u8],
    n: u64,
    m: u64,
    to: &mut Octets,
) -> Result<(), Memory>
    ensures ok { OnOk result (to.new ≡ to.old ++ (word.now ++ 32 ∷ (decimal n ++ 32 ∷ decimal m))) }
    ensures err { OnErr result (AddsFront to.old to.new (word.now ++ 32 ∷ (decimal n ++ 32 ∷ decimal m))) }
{
    with_number(alloc, word, n, to)?;
    number_field(alloc, m, to)
}

/// Appends the key of a lease in the form STREAM/SHARD.
pub fn write_key(alloc: Global, key: ShardRef, to: &mut Octets) -> Result<(), Memory>
    ensures ok { OnOk result (to.new ≡ to.old ++ key_text key) }
    ensures err { OnErr result (AddsFront to.old to.new (key_text key)) }
{
    write_u64(alloc, key.stream.0, to)?;
    to.extend(b"/".as_slice())?;
    write_u64(alloc, key.shard.0, to)
}

/// Appends a word, a space and the key of a lease.
pub fn with_key(alloc: Global, word: &[u8], key: ShardRef, to: &mut Octets) -> Result<(), Memory>
    ensures ok { OnOk result (to.new ≡ to.old ++ (word.now ++ 32 ∷ key_text key)) }
    ensures err { OnErr result (AddsFront to.old to.new (word.now ++ 32 ∷ key_text key)) }
{
    to.extend(word)?;
    to.extend(b" ".as_slice())?;
    write_key(alloc, key, to)
}
