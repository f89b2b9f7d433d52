//! The hash keys of partition keys.
ghost use Rattle.std.specs.Prelude.{◌≡◌};
ghost use Rattle.kds_base.specs.Hashes.{key_hash};

use crate::octets::Octets;
use md5::{Digest, Md5};

/// Returns the hash key of the partition key `key`: the 16 bytes of the MD5 digest of `key`, read as a big-endian
/// number (Kinesis API Reference, PutRecord; RFC 1321).
pub fn hash_of(key: &Octets) -> u128
    ensures { result ≡ key_hash key.now }
{
    u128::from_be_bytes(Md5::digest(key.as_slice()))
}
