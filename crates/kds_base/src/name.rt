//! The names of streams.
ghost use Rattle.std.specs.Prelude.{◌≡◌, List, ℕ, length, IfOk, IsTrue, nat_eq, true};
ghost use Rattle.std.specs.Cmp.{partial_equiv_from_equiv};
ghost use Rattle.std.specs.Cmp.Lexicographic.{nat_list_eq_equiv, pointwise};
ghost use Rattle.std.specs.Cmp.Rules.{hashing};
ghost use Rattle.std.specs.Hash as fed;
ghost use Rattle.std.specs.List.{list_all};
ghost use Rattle.std.proofs.Common.{rules};
ghost use Rattle.kds_base.specs.Names.{is_name, is_name_byte, name_of};

use crate::memory::Memory;
use crate::octets::Octets;
use std::alloc::Global;
use std::hash::{Hash, Hasher};
use std::marker::Model;

/// The greatest number of bytes in a stream's name.
pub const NAME_BYTES: usize = 128;

/// A stream's name: 1 to 128 characters, each an ASCII letter, an ASCII digit, `_`, `.` or `-` (Kinesis API Reference,
/// CreateStream, StreamName). In contracts, a name is the list of its bytes.
#[derive(Drop)]
pub struct Name {
    text: Octets,
}

impl Model for Name {
    ghost use Rattle.std.specs.Prelude.{◌≡◌, List, ℕ, true};
    ghost use Rattle.kds_base.specs.Names.{is_name};

    ghost Value = { List ℕ };

    ghost view = { λ n. n.text };

    ghost invariant = { λ n. is_name n.text ≡ true };
}

fn names_byte(b: u8) -> bool
    ensures { result ≡ is_name_byte b }
{
    b.is_ascii_alphanumeric() || b == b'_' || b == b'.' || b == b'-'
}

fn all_name_bytes(text: &[u8]) -> bool
    ensures { result ≡ list_all is_name_byte text.now }
{
    text.iter().all(|b| names_byte(*b))
}

fn names(text: &[u8]) -> bool
    ensures { result ≡ is_name text.now }
{
    !text.is_empty() && text.len() <= NAME_BYTES && all_name_bytes(text)
}

impl Name {
    /// Returns the name with the text `text`, or `None` if `text` isn't a valid stream name.
    pub fn read(alloc: Global, text: &[u8]) -> Result<Option<Name>, Memory>
        ensures { IfOk result (λ o. o ≡ name_of text.now) }
    {
        if names(text) {
            let text = Octets::of(alloc, text)?;
            Ok(Some(Name { text }))
        } else {
            Ok(None)
        }
    }

    /// Returns the bytes of the name.
    pub fn bytes(&self) -> &[u8]
        ensures value { result.now ≡ self.now }
        ensures name { is_name self.now ≡ true }
    {
        self.text.as_slice()
    }

    /// Returns a copy of the name.
    pub fn copy(&self, alloc: Global) -> Result<Name, Memory>
        ensures { IfOk result (λ n. n ≡ self.now) }
    {
        Ok(Name {
            text: self.text.copy(alloc)?,
        })
    }
}

/// Two names are equal if their bytes are equal.
impl PartialEq for Name {
    ghost eq = { pointwise nat_eq };

    ghost laws = { partial_equiv_from_equiv nat_list_eq_equiv };

    fn eq(&self, other: &Name) -> bool {
        self.bytes() == other.bytes()
    }
}

impl Eq for Name {
    ghost laws = { nat_list_eq_equiv };
}

impl Hash for Name {
    ghost hash_input = { fed.slice fed.u8 };

    ghost respects_eq = { Prim.search (hashing, rules) };

    fn hash<H: Hasher>(&self, state: &mut H) {
        self.bytes().hash(state);
    }
}
