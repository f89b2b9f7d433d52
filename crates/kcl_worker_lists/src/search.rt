//! Finds the row of a key among the rows of a survey. A survey lists the rows in the order of their keys.
ghost use Rattle.std.specs.Prelude.{◌≡◌, slice_get, true};
ghost use Rattle.std.specs.Option.{option_map};
ghost use Rattle.kcl_defs.specs.Plans.{AreRising, keys_of, row_of};
ghost use Rattle.kcl_worker_lists.specs.Indexes.{if_key};

use kcl_defs::insertion_index;
use kds_base::ShardRef;
use kds_defs::Row;

/// Returns the row at the index `index` if the row's key is `key`, and otherwise `None`.
fn row_at<'a>(rows: &'a [Row], index: usize, key: &ShardRef) -> Option<&'a Row>
    ensures { option_map (λ r. r.now) result ≡ if_key key.now (slice_get rows.now index) }
{
    let row = rows.get(index)?;
    if row.key == *key { Some(row) } else { None }
}

/// Returns the row whose key is `key`, by binary search, or `None` if there is no such row.
#[tactic(auto, using(crate::proofs::Indexes::row_there))]
fn search_row<'a>(rows: &'a [Row], key: &ShardRef) -> Option<&'a Row>
    requires { AreRising (keys_of rows.now) }
    ensures { option_map (λ r. r.now) result ≡ row_of rows.now key.now }
{
    row_at(rows, insertion_index(rows, key), key)
}

/// Returns the first row with the key `key`, or `None` if no row has this key.
fn first_row<'a>(rows: &'a [Row], key: &ShardRef) -> Option<&'a Row>
    ensures { option_map (λ r. r.now) result ≡ row_of rows.now key.now }
{
    for r in rows {
        if r.key == *key {
            return Some(r);
        }
    }
    None
}

/// Returns the first row with the key `key`, or `None` if no row has this key. If the keys rise, `rising` may say so;
/// the row is then found by binary search.
pub fn row_of<'a>(rows: &'a [Row], key: &ShardRef, rising: bool) -> Option<&'a Row>
    requires { rising ≡ true → AreRising (keys_of rows.now) }
    ensures { option_map (λ r. r.now) result ≡ row_of rows.now key.now }
{
    if rising {
        search_row(rows, key)
    } else {
        first_row(rows, key)
    }
}
