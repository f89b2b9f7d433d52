//! Tests of the journal entries that a scribe makes. A scribe computes the entries that each turn adds to a journal,
//! the event log of a run. A turn is one command with its sender and its time.
use kcl_journal::{EntryLine, print_entry};
use kcl_sim_scribe::Scribe;
use kds_base::{Items, Memory, Moment, Name, Octets};
use kds_defs::{Answer, Command, Reply, Turn};
use std::alloc::Global;
use std::test::Fail;

/// Returns the journal entries that a new scribe makes for the turn that creates the stream `name` with one shard.
fn made(alloc: Global, name: Name) -> Result<Items<EntryLine>, Memory> {
    let mut scribe = Scribe::new(alloc);
    let turn = Turn::request(Moment::start(), Command::Create { name, shards: 1 });
    let answer: Answer = Ok(Reply::Done);
    scribe.note(alloc, &turn, &answer)
}

#[test]
fn a_new_scribe_notes_the_making_of_a_stream(rt: HostRuntime) -> Result<(), Fail> {
    kcl_sim_scribe::turn_by_turn();
    let Some(name) = Name::read(rt.alloc(), b"s".as_slice())? else {
        assert!(rt; false);
        return Ok(());
    };
    let lines = made(rt.alloc(), name)?;
    let mut text = Octets::new(rt.alloc());
    for line in lines.as_slice() {
        print_entry(rt.alloc(), line, &mut text)?;
    }
    let given = String::from_utf8_lossy(rt.alloc(), text.as_slice())?;
    assert_eq!(rt; given.as_str(), "0 0 made 1 s 1");
    Ok(())
}
