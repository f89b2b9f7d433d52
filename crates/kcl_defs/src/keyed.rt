//! Finds the place of a lease key in a list. A survey lists shards and rows in the order of their keys, and a worker
//! keeps its leases in this order. Whether a list is in order is looked at once, so that no caller has to know it.
ghost use Rattle.std.specs.Prelude.{◌≡◌, ◌≤◌, is_some, length, map, slice_get, true};
ghost use Rattle.std.specs.List.{list_any, position};
ghost use Rattle.kds_base.specs.declared.lease_key.ShardRef.{ShardRef};
ghost use Rattle.kcl_defs.specs.Plans.{AreRising};
ghost use Rattle.kds_defs.specs.Keys.{same_key};
ghost use Rattle.kcl_defs.specs.Places.{before_next, insertion_index, passes};

use crate::plans::Held;
use kds_base::ShardRef;
use kds_defs::{Row, is_before};

/// An item with a lease key: a shard, a row of the lease table, or a lease that a worker holds.
pub trait Keyed {
    ghost key_of: { Self → ShardRef };

    /// Returns the key.
    fn key(&self) -> ShardRef
        ensures { result ≡ key_of self.now };
}

impl Keyed for ShardRef {
    ghost key_of = { λ k. k };

    fn key(&self) -> ShardRef {
        *self
    }
}

impl Keyed for Row {
    ghost key_of = { λ r. r.key };

    fn key(&self) -> ShardRef {
        self.key
    }
}

impl Keyed for Held {
    ghost key_of = { λ h. h.key };

    fn key(&self) -> ShardRef {
        self.key
    }
}

/// Whether `key` comes before the key of the item at the index `next`, if there is one.
fn before_next<T: Keyed>(key: &ShardRef, items: &[T], next: usize) -> bool
    ensures { result ≡ before_next T.key_of key.now (slice_get items.now next) }
{
    match items.get(next) {
        Some(item) => is_before(key, &item.key()),
        None => true,
    }
}

/// Whether each item's key comes before that of the next item.
pub fn are_rising<T: Keyed>(items: &[T]) -> bool
    ensures { result ≡ true → AreRising (map T.key_of items.now) }
{
    let mut i = items.len();
    while i > 0 {
        i -= 1;
        let key = items[i].key();
        if !before_next(&key, items, i + 1) {
            return false;
        }
    }
    true
}

/// Returns the number of items whose keys come before `key`. This is the index of the item with the key `key`, if there
/// is one. The keys must rise.
pub fn insertion_index<T: Keyed>(items: &[T], key: &ShardRef) -> usize
    requires { AreRising (map T.key_of items.now) }
    ensures value { result ≡ insertion_index T.key_of key.now items.now }
    ensures within { result ≤ length items.now }
{
    items.partition_point(|item| is_before(&item.key(), key))
}

/// Whether the item at the index `index` has the key `key`.
fn stands_at<T: Keyed>(items: &[T], index: usize, key: &ShardRef) -> bool
    ensures { result ≡ passes (λ x. same_key (T.key_of x) key.now) (slice_get items.now index) }
{
    match items.get(index) {
        Some(item) => item.key() == *key,
        None => false,
    }
}

/// Returns the index of the item with the key `key`, by binary search, or `None` if there is no such item. The keys
/// must rise.
fn search<T: Keyed>(items: &[T], key: &ShardRef) -> Option<usize>
    requires { AreRising (map T.key_of items.now) }
    ensures { is_some result ≡ list_any (λ x. same_key (T.key_of x) key.now) items.now }
{
    let index = insertion_index(items, key);
    if stands_at(items, index, key) {
        Some(index)
    } else {
        None
    }
}

/// Returns the index of the first item with the key `key`, or `None` if there is no such item.
fn first_index<T: Keyed>(items: &[T], key: &ShardRef) -> Option<usize>
    ensures { result ≡ position (λ x. same_key (T.key_of x) key.now) items.now }
{
    items.iter().position(|item| item.key() == *key)
}

/// Returns the index of an item with the key `key`, or `None` if there is no such item. The item at the index `hint` is
/// looked at first. If the keys rise, `rising` may say so; the item is then found by binary search.
pub fn index_of<T: Keyed>(items: &[T], key: &ShardRef, hint: usize, rising: bool) -> Option<usize>
    requires { rising ≡ true → AreRising (map T.key_of items.now) }
    ensures { is_some result ≡ list_any (λ x. same_key (T.key_of x) key.now) items.now }
{
    if stands_at(items, hint, key) {
        Some(hint)
    } else if rising {
        search(items, key)
    } else {
        first_index(items, key)
    }
}
