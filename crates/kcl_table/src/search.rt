//! Finds the row with a given key among the rows of the lease table.
ghost use Rattle.std.specs.Prelude.{◌≡◌, ◌≤◌, length, slice_get};
ghost use Rattle.std.specs.Option.{option_map};
ghost use Rattle.kcl_table.specs.Rows.{AreInOrder, if_key, insertion_index, row_of};

use kds_base::ShardRef;
use kds_defs::{Row, is_before};

/// Returns the number of rows whose keys come before `key`. This is the index at which a row with the key `key`
/// belongs.
pub fn insertion_index(rows: &[Row], key: &ShardRef) -> usize
    requires { AreInOrder rows.now }
    ensures value { result ≡ insertion_index key.now rows.now }
    ensures within { result ≤ length rows.now }
{
    rows.partition_point(|row| is_before(&row.key, key))
}

/// Returns the row at the index `index` if the row's key is `key`, and otherwise `None`.
fn row_at<'a>(rows: &'a [Row], index: usize, key: &ShardRef) -> Option<&'a Row>
    ensures { option_map (λ r. r.now) result ≡ if_key key.now (slice_get rows.now index) }
{
    let row = rows.get(index)?;
    if row.key == *key { Some(row) } else { None }
}

/// Returns the row whose key is `key`, or `None` if there is no such row.
#[tactic(auto, using(crate::proofs::Places::row_there))]
pub fn row_of<'a>(rows: &'a [Row], key: &ShardRef) -> Option<&'a Row>
    requires { AreInOrder rows.now }
    ensures { option_map (λ r. r.now) result ≡ row_of rows.now key.now }
{
    row_at(rows, insertion_index(rows, key), key)
}
