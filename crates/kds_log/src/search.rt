//! Binary searches in the records of a log. The records are in order: from record to record the sequence number rises,
//! and the arrival time doesn't fall.
ghost use Rattle.std.specs.Prelude.{◌≡◌, ◌≤◌, drop, length, map, []};
ghost use Rattle.std.specs.VecDeque.{deque_capacity};
ghost use Rattle.kds_defs.specs.Records.{left_among, logged};
ghost use Rattle.kds_log.specs.Log.{AreInOrder, first_number};

use crate::record::is_left;
use kds_base::Seq;
use kds_defs::Stored;
use std::collections::VecDeque;

/// Returns the index of the first record that arrived at or after `floor` (in milliseconds) and has a sequence number
/// of at least `position`. If there is no such record, returns the number of records. Precondition: the records are in
/// the order of their sequence numbers and of their arrival times. Therefore all records after the found record meet
/// both conditions too.
pub fn first_index(records: &VecDeque<Stored>, floor: u64, position: u64) -> usize
    requires { AreInOrder (map logged records.now.items) }
    ensures left { left_among floor position (map logged records.now.items)
        ≡ map logged (drop result records.now.items) }
    ensures within { result ≤ length records.now.items }
{
    match records.front() {
        Some(first) if !is_left(first, floor, position) => {
            records.partition_point(|item| !is_left(item, floor, position))
        }
        _ => 0,
    }
}

/// Returns the sequence number of the first record that arrived at or after `floor` (in milliseconds), or `None` if
/// there is no such record. Precondition: the records are in the order of their sequence numbers and of their arrival
/// times.
pub fn first_since(records: &VecDeque<Stored>, floor: u64) -> Option<Seq>
    requires { AreInOrder (map logged records.now.items) }
    ensures { result ≡ first_number (left_among floor 0 (map logged records.now.items)) }
{
    let start = first_index(records, floor, 0);
    match records.get(start) {
        Some(item) => Some(item.seq),
        None => None,
    }
}

/// Frees memory that the records don't need. An empty queue keeps no memory. Any other queue keeps at most four times
/// the memory that its records use; the contract doesn't state this bound.
fn shrink(records: &mut VecDeque<Stored>)
    ensures same { records.new.items ≡ records.old.items }
    ensures freed { records.old.items ≡ [] → deque_capacity records.new ≡ 0 }
{
    let used = records.len();
    if used <= records.capacity() / 4 {
        records.shrink_to(used.saturating_mul(2));
    }
}

/// Removes exactly the records that arrived before `floor` (in milliseconds). Precondition: the records are in the
/// order of their sequence numbers and of their arrival times. If no record is left, the queue keeps no memory.
pub fn drop_below(records: &mut VecDeque<Stored>, floor: u64)
    requires { AreInOrder (map logged records.old.items) }
    ensures left { map logged records.new.items ≡ left_among floor 0 (map logged records.old.items) }
    ensures freed { records.new.items ≡ [] → deque_capacity records.new ≡ 0 }
{
    let count = first_index(records, floor, 0);
    for _i in 0..count {
        records.pop_front();
    }
    shrink(records);
}
