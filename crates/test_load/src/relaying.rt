//! Uses a note, a message between passes, to tell one pass which turns another pass has seen. A turn is one command to
//! a machine, and a pass is the right of one thread to make turns. A hall is a lock around the machine, with one
//! history of all turns.
ghost use Rattle.std.specs.Prelude.{◌≡◌, [], IfOk};

use crate::checking::records_of;
use crate::commands::{asked, create, put, read};
use crate::joining::join_all;
use crate::play::{ask, turn};
use kds_base::{Memory, Moment, Seq};
use kds_defs::{Answer, Machine};
use kds_turn::{Hall, Note, Pass};
use std::alloc::Global;
use std::sync::Wait;

/// The number of the shard in which the record of pass 1 is stored.
const HOME: u64 = 3;

/// What the second pass read after it had received the note, and the number of turns in the history of the closed hall.
#[derive(Drop)]
pub struct Relayed {
    /// The sequence number of the first record that the second pass read. `None` if it read no record.
    pub number: Option<Seq>,
    pub turns: u64,
}

/// Returns the sequence number of the first record that `records_of` finds in the answer, or `None` if it finds no
/// record.
fn number_in(answer: Answer) -> Option<Seq> {
    let (batch, _next) = records_of(answer)?;
    let record = batch.as_slice().first()?;
    Some(record.seq)
}

/// Makes two turns of `pass`: the first creates the stream, the second puts a record. Returns a note of all turns that
/// the pass has seen.
fn told<M: Machine, R: Wait>(
    rt: &R,
    alloc: Global,
    hall: &Hall<M>,
    pass: &mut Pass<M>,
) -> Result<Note<M>, Memory>
    requires { pass.old.hall ≡ hall.now.id }
    ensures hall { pass.new.hall ≡ hall.now.id }
    ensures note { IfOk result (λ note. note.hall ≡ hall.now.id) }
{
    let stream = create(alloc)?;
    turn(rt, hall, pass, Moment::start(), stream)?;
    let record = put(alloc, 1, 0)?;
    turn(rt, hall, pass, Moment::start(), record)?;
    hall.tell(pass)
}

/// Makes two turns of `pass`: the first gets an iterator for the shard `HOME`, the second reads the shard's first
/// record. Returns the sequence number of this record, or `None` if there is no record.
fn first_read<M: Machine, R: Wait>(
    rt: &R,
    alloc: Global,
    hall: &Hall<M>,
    pass: &mut Pass<M>,
) -> Result<Option<Seq>, Memory>
    requires { pass.old.hall ≡ hall.now.id }
    ensures { pass.new.hall ≡ hall.now.id }
{
    let iterator = asked(
        alloc,
        "GetShardIterator",
        "{\"StreamName\":\"stress\",\"ShardId\":\"shardId-000000000003\",\"ShardIteratorType\":\"TRIM_HORIZON\"}",
    )?;
    turn(rt, hall, pass, Moment::start(), iterator)?;
    let start = read(HOME, 0, 1, Moment::start());
    let answer = ask(rt, hall, pass, Moment::start(), start)?;
    Ok(number_in(answer))
}

/// Makes a hall with two passes over the new machine `machine`. The first pass puts a record. The second pass learns
/// from a note which turns the first pass has seen, and then reads the record. Finally, the passes are joined, and the
/// hall is closed. The result is `None` if memory ran out.
pub fn relay<M: Machine + Drop, R: Wait>(rt: &R, alloc: Global, machine: M) -> Option<Relayed>
    requires { M.stands_for machine [] }
{
    let Ok((hall, mut passes)) = Hall::new(alloc, machine, 2) else {
        return None;
    };
    let mut second = passes.pop()?;
    let mut first = passes.pop()?;
    let note = told(rt, alloc, &hall, &mut first).ok()?;
    hall.learn(&mut second, note);
    let number = first_read(rt, alloc, &hall, &mut second).ok()?;
    passes.push(first).ok()?;
    passes.push(second).ok()?;
    let pass = join_all(&hall, passes, 2)?;
    let (_machine, past) = hall.close(pass);
    let turns = past.turns();
    Some(Relayed { number, turns })
}
