//! The records of a stream as a value that only contracts use (decision 103).
ghost use Rattle.std.specs.Prelude.{◌≡◌, ◌++◌, ◌∷◌, [], List};
ghost use Rattle.std.specs.Borrow.{ftrue};
ghost use Rattle.kcl_audit_streams.specs.declared.records.Sized.{Sized};

use crate::records::Sized;
use std::marker::Model;

/// The records of a stream, in the order in which they were put. A value of this type takes no bytes, and its functions
/// do nothing at run time. The invariant of `Records` relates these records to those that are kept for each shard.
#[derive(Drop)]
pub struct Puts {
    pub ghost items: { List Sized },
}

impl Model for Puts {
    ghost also_owns = { λ _. ftrue };
}

impl Puts {
    /// Returns the list without records.
    pub fn new() -> Puts
        ensures { result.items ≡ [] }
    {
        Puts {}
    }

    /// Returns this list with the record `_item` at its end.
    pub fn then(&self, _item: &Sized) -> Puts
        ensures { result.items ≡ self.now.items ++ _item.now ∷ [] }
    {
        Puts {}
    }
}
